//! Crews: how one is built. Whoever runs one writes no proof, and names no desk.
ghost use Rattle.std.specs.Prelude.{◌≡◌};

use crate::behaviour::Behaviour;
use crate::client::{Nobody, Program};
use crate::clock::Moments;
use crate::plan::Plan;
use crate::watch::{Figures, Watch};
use std::time::Duration;
use sup_types::{AlwaysRunning, Starter, Template};

/// A crew that is to run: what its children do, and how.
#[derive(Drop)]
pub struct Crew<
    'b,
    B: Behaviour,
    S: Starter + Drop = AlwaysRunning,
    U: Drop = Nobody,
    W = Figures,
> {
    /// What its children do.
    pub behaviour: &'b B,
    /// The template of its children.
    pub template: Template,
    starter: S,
    /// What runs in threads of its own.
    pub peers: Option<Vec<U>>,
    /// Learns what is entered.
    pub(crate) watcher: Option<&'b W>,
    /// What gives the moments of its updates, if that was set.
    pub(crate) moments: Option<Moments<'b>>,
    /// How it runs.
    pub plan: Plan,
}

impl<'b, B: Behaviour> Crew<'b, B> {
    /// Makes a crew of one thread, whose starts are all answered `Running`. It has the times of [`Plan::new`].
    pub fn new(template: Template, behaviour: &'b B) -> Crew<'b, B> {
        Crew {
            behaviour,
            template,
            starter: AlwaysRunning,
            peers: None,
            watcher: None,
            moments: None,
            plan: Plan::new(1),
        }
    }
}

impl<'b, B: Behaviour, S: Starter + Drop, U: Drop, W> Crew<'b, B, S, U, W> {
    /// Sets how many threads run children: 1 to 64.
    pub fn threads(mut self, workers: usize) -> Self {
        self.plan.workers = workers;
        self
    }

    /// Sets for how long a child may run after it was asked to end, as OTP's `shutdown` time.
    pub fn grace(mut self, grace: Duration) -> Self {
        self.plan = Plan { grace, ..self.plan };
        self
    }

    /// Sets after which time a restart that failed is tried again. OTP tries it at once, which uses the intensity up: so does a crew by
    /// default. If the template's intensity times this delay is longer than its period, a child whose restart always fails never takes
    /// the supervisor down.
    pub fn retry_after(mut self, retry_after: Duration) -> Self {
        self.plan = Plan {
            retry_after,
            ..self.plan
        };
        self
    }

    /// Makes room for this many clients and askers beside the program's client and those of the peers. Each costs each update a little.
    pub fn places(mut self, places: u64) -> Self {
        self.plan.places = places;
        self
    }

    /// Sets how many messages may wait for a child; threads that send at once may each pass that by one. By default there is no limit.
    pub fn mailbox(mut self, mailbox: usize) -> Self {
        self.plan.mailbox = mailbox;
        self
    }

    /// Sets whether the children that are listed when the crew closes stay listed: a later crew over the same history runs them again. By
    /// default they do if the history is in a file.
    pub fn keep_children(mut self, keeps: bool) -> Self {
        self.plan = Plan {
            keeps: Some(keeps),
            ..self.plan
        };
        self
    }

    /// Sets where the moments of its updates come from. By default they begin with the time of day, and never go back.
    pub fn moments(mut self, moments: Moments<'b>) -> Self {
        self.moments = Some(moments);
        self
    }

    /// Has this watcher told what the crew enters.
    pub fn watch<V: Watch>(self, watcher: &'b V) -> Crew<'b, B, S, U, V> {
        Crew {
            watcher: Some(watcher),
            behaviour: self.behaviour,
            template: self.template,
            starter: self.starter,
            peers: self.peers,
            moments: self.moments,
            plan: self.plan,
        }
    }

    /// Runs these programs as well, each in a thread of its own by a client of its own.
    pub fn peers<V: Program<B> + Drop>(self, peers: Vec<V>) -> Crew<'b, B, S, V, W> {
        Crew {
            peers: Some(peers),
            behaviour: self.behaviour,
            template: self.template,
            starter: self.starter,
            watcher: self.watcher,
            moments: self.moments,
            plan: self.plan,
        }
    }

    /// Has starts answered by this function.
    pub fn starter<V: Starter + Drop>(self, starter: V) -> Crew<'b, B, V, U, W> {
        self.with_starter(starter).1
    }

    /// Returns the function that answers starts, and the crew with another in its place.
    pub(crate) fn with_starter<V: Starter + Drop>(self, starter: V) -> (S, Crew<'b, B, V, U, W>)
        ensures { (result.1.behaviour ≡ self.entry.behaviour) × (result.1.peers ≡ self.entry.peers) }
    {
        let crew = Crew {
            starter,
            behaviour: self.behaviour,
            template: self.template,
            peers: self.peers,
            watcher: self.watcher,
            moments: self.moments,
            plan: self.plan,
        };
        (self.starter, crew)
    }
}
