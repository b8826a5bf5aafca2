//! What a run is asked to do, and what it hands back.

use crate::driver::Tally;
use crate::job::Job;
use sup_desk::{DetachedHandle, Name, UpdateFault};
use sup_inbox::Note;
use sup_log::Ticket;
use sup_types::Text;

/// Says what a crew is to do.
#[derive(Drop)]
pub struct Plan {
    /// The arguments of the children that are to be started, in order. There may be none.
    pub children: Vec<Text>,
    /// How many workers there are, 1 to 64.
    pub workers: usize,
    /// How many notes the inbox holds at most, 1 to 65,536.
    pub inbox: usize,
    /// How often a post is tried, and how many turns in a row the driver finds nothing before it gives up: 1 to 2^62. A turn
    /// without success is a sleep of at most 0.1 s.
    pub turns: u64,
    /// The moment of all updates, in seconds.
    pub moment: u64,
}

/// Reports a run of a crew.
#[derive(Drop)]
pub struct Report<N: Name> {
    /// The number of the driver's handle, by which all updates were made.
    pub driver: u64,
    /// The driver's handle, if it was made for this run: an audit asks for it.
    pub caller: Option<DetachedHandle<N>>,
    pub ticket: Option<Ticket>,
    pub tally: Tally,
    pub unstarted: Vec<Text>,
    /// The notes that were taken and not entered.
    pub held: Vec<Note>,
    /// The notes that remain in the inbox.
    pub inbox: Vec<Note>,
    /// The notes that the workers could not post.
    pub unposted: Vec<Note>,
    /// The jobs that were not run.
    pub left: Vec<Job<N>>,
    pub fault: Option<UpdateFault>,
}
