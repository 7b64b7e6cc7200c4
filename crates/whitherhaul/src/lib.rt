// The C boundary: each call takes numbers and byte runs, the state and the client's record among them, and returns document 01's number, 0 where it is done. Counts and
// other answers go to one lent array of numbers a call, the offset of a wrong byte to a place of its own. None asks anything of its caller but that what he points to is there, and that no two of these places overlap.
#![tactic(auto)]

pub mod replicas; // a replica: create, recover, on_message, on_idle, takings
pub mod clients; // a client: create, request, reply, idle; a Reply, read
