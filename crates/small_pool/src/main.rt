//! The smallest pool: a child for each name, in two threads. One that crashes is started again, at most five times.
#![tactic(auto)]

use anyhow::Result;
use sup_crew::{Pool, Work};
use sup_types::{Reason, Text};

struct Upload;

impl Work for Upload {
    fn run(&self, _name: Text) -> Reason {
        Reason::Normal
    }
}

fn main(rt: HostRuntime) -> Result<()> {
    let report = Pool::new(2, 5)?.run(&rt, &["ann", "bob"], &Upload)?;
    Ok(println!(rt; "{report:?}")?)
}
