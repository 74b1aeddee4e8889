//! Rows of the allocator that refuses, of mailboxes, of the ticket lock and of boards, over their public calls.
#![tactic(auto)]

#[cfg(test)]
mod boards;
#[cfg(test)]
mod held;
#[cfg(test)]
mod locks;
#[cfg(test)]
mod mailboxes;
#[cfg(test)]
mod many;
#[cfg(test)]
mod refusals;
#[cfg(test)]
mod refusing;
