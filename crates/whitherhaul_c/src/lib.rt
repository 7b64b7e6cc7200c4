// The calls of the crate whitherhaul as C finds them in libwhitherhaul.a: each passes its arguments on, and promises the same.
#![tactic(auto)]

mod replicas; // a replica: create, recover, on_message, on_idle, takings
mod clients; // a client: create, request, reply, idle; a Reply, read
