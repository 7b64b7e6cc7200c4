// View change: how a replica leaves a view, and how it joins the one that was started.
#![tactic(auto)]

pub mod start_view;
pub mod start_view_change;

// What is done with a StartView: nothing, as it isn't new to us; refusal 7; or it is joined.
#[derive(Clone, Copy)]
pub enum StartViewVerdict {
    Ignore,
    Refuse,
    Join,
}
