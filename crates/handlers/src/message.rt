// on_message: the status's table of kinds, then the handler. A frame comes here after refusals 1 to 6 on it alone.
ghost use Rattle.std.specs.Prelude.{◌≡◌, Ok};
ghost use Rattle.frames.specs.Refusals.{check_frame};
ghost use Rattle.book.specs.Memory.{memory};
ghost use Rattle.steps.specs.Recorded.{Gathering, Does};
ghost use Rattle.handlers.specs.Handlers.{handled, message_step};

use client_table::Latest;
use frames::Message;
use normal::prepare::Prepared;
use state::{Replica, Returned};
use transfer::Part;

// The match, one arm a kind. Only the kinds that carry a log look at the frame again.
fn handle(
    s: Replica,
    m: Message,
    latest: Latest,
    frame: &[u8],
    log: &mut [u8],
    results: &mut [u8],
    totals: &mut [u8],
    acks: &mut [u8],
    stored: &mut [u8],
    out: &mut [u8],
    reps: &mut [u8],
) -> Returned
    requires { Gathering s (memory log.old results.old totals.old acks.old stored.old out.old reps.old) × (check_frame s.setup frame.now ≡ Ok m) }
    ensures { Does (handled m s latest frame.now) result (memory log.old results.old totals.old acks.old stored.old out.old reps.old) (memory log.new results.new totals.new acks.new stored.new out.new reps.new) }
{
    match m {
        Message::Request { entry } => {
            normal::request::on_request(s, entry, latest, log, acks, out, reps)
        }
        Message::Prepare {
            view,
            op,
            commit,
            entry,
        } => {
            let p = Prepared {
                op,
                commit,
                entry,
                latest,
            };
            normal::prepare::on_prepare(s, view, p, log, results, totals, out)
        }
        Message::PrepareOk { view, op, from } => normal::prepare_ok::on_prepare_ok(
            s, view, op, from, log, results, totals, acks, reps,
        ),
        Message::Commit { view, commit } => {
            normal::commit::on_commit(s, view, commit, log, results, totals, out)
        }
        Message::GetState { from, view, op } => {
            transfer::get_state::on_get_state(s, from, view, op, log, out)
        }
        Message::NewState {
            view,
            start,
            end,
            commit,
        } => {
            let p = Part { start, end, commit };
            let part = frames::carried_bytes(m, frame);
            transfer::new_state::on_new_state(s, view, p, part, log, results, totals, out)
        }
        Message::StartViewChange { view, from } => {
            voting::votes::on_start_view_change(
                s, view, from, log, results, totals, acks, stored, out, reps,
            )
        }
        Message::DoViewChange {
            view,
            from,
            last_normal,
            op,
            commit,
        } => {
            let part = frames::carried_bytes(m, frame);
            do_view_change::record::on_do_view_change(
                s,
                view,
                from,
                last_normal,
                op,
                commit,
                part,
                log,
                results,
                totals,
                acks,
                stored,
                out,
                reps,
            )
        }
        Message::StartView { view, op, commit } => {
            let part = frames::carried_bytes(m, frame);
            view_change::start_view::on_start_view(
                s, view, op, commit, part, log, results, totals, acks, out,
            )
        }
        Message::Recovery { from, nonce, view } => {
            recovery::on_recovery(s, from, nonce, view, log, out)
        }
        Message::RecoveryResponse {
            view,
            nonce,
            from,
            state,
        } => {
            let part = frames::carried_bytes(m, frame);
            recovery::response::on_recovery_response(
                s, view, nonce, from, state, part, log, results, totals, stored,
            )
        }
    }
}

// on_message
pub fn on_message(
    s: Replica,
    m: Message,
    latest: Latest,
    frame: &[u8],
    log: &mut [u8],
    results: &mut [u8],
    totals: &mut [u8],
    acks: &mut [u8],
    stored: &mut [u8],
    out: &mut [u8],
    reps: &mut [u8],
) -> Returned
    requires { Gathering s (memory log.old results.old totals.old acks.old stored.old out.old reps.old) × (check_frame s.setup frame.now ≡ Ok m) }
    ensures { Does (message_step m s latest frame.now) result (memory log.old results.old totals.old acks.old stored.old out.old reps.old) (memory log.new results.new totals.new acks.new stored.new out.new reps.new) }
{
    let status = s.status;
    if !frames::looks(status, m) {
        return state::done(s, 0, 0, false);
    }
    handle(
        s, m, latest, frame, log, results, totals, acks, stored, out, reps,
    )
}
