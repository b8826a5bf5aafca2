//! What is held of an open supervisor: the rules, what they answered, and the callers' values of children. A child without one has 0.
ghost use Rattle.std.specs.Prelude.{◌≡◌, ◌<◌, ℕ};
ghost use Rattle.indexmap.specs.IndexMap.{spare};
ghost use Rattle.sup_c.specs.Leaving.{may_end};
ghost use Rattle.sup_c.specs.Tokens.{token_in, with_token, tokens_after, token_told, number_of};

use indexmap::IndexMap;
use std::alloc::Global;
use sup_core::Sup;
use sup_types::{Operation, Reply, Row, Seen, Template};

type Tokens = IndexMap<u64, u64>;

/// A supervisor, with what it answered when its rows were listed last, who remained when it went down, and its children's values.
#[derive(Drop)]
pub struct Shelf {
    pub sup: Sup<Global>,
    pub template: Template,
    pub listed: Seen<Vec<Row, Global>>,
    pub left: Seen<Vec<Row, Global>>,
    pub tokens: Tokens,
    ghost tied: { template ≡ sup.template },
}

/// Returns whether an operation may take a supervisor of this template down, if it is asked about a start or not.
pub(crate) fn may_end(template: &Template, operation: &Operation, asked: bool) -> bool
    ensures { result ≡ may_end template.now operation.now asked }
{
    match operation {
        Operation::Start(_) | Operation::Terminate(_) => false,
        Operation::Exit(_, reason) => {
            !asked && (template.significant || template.restart.restarts_after(reason))
        }
        Operation::Retry(_) => !asked,
        Operation::Stop => true,
    }
}

/// Returns the value of the child with this number.
pub(crate) fn token_of(tokens: &Tokens, number: u64) -> u64
    ensures { result ≡ token_in tokens.now number }
{
    tokens.get(&number).copied().unwrap_or(0)
}

/// Follows an operation that had this reply. A start gives its child the value `token`; then it stores that of the operation's child.
pub(crate) fn follow(tokens: &mut Tokens, operation: &Operation, token: &mut u64, reply: &Reply)
    requires { 0 < spare tokens.old }
    ensures told { token.new ≡ token_told (token_in tokens.old) operation.now token.old }
    ensures tokens { (other : ℕ) → token_in tokens.new other ≡ tokens_after (token_in tokens.old) (number_of operation.now) token.old reply.now other }
{
    let given = *token;
    let number = match operation {
        Operation::Exit(number, _) | Operation::Retry(number) => *number,
        Operation::Terminate(number) => *number,
        Operation::Start(_) | Operation::Stop => 0,
    };
    if !matches!(operation, Operation::Start(_)) {
        *token = token_of(tokens, number);
    }
    match reply {
        Reply::Started(number) => put(tokens, *number, given),
        Reply::Restarted(number, next) => {
            let token = tokens.swap_remove(number).unwrap_or(0);
            put(tokens, *next, token);
        }
        Reply::Removed(number) | Reply::Ignored(number) => put(tokens, *number, 0),
        Reply::Ended => put(tokens, number, 0),
        _ => {}
    }
}

/// Gives a child a value.
fn put(tokens: &mut Tokens, number: u64, token: u64)
    requires { 0 < spare tokens.old }
    ensures { (other : ℕ) → token_in tokens.new other ≡ with_token (token_in tokens.old) number token other }
{
    if token == 0 {
        let _ = tokens.swap_remove(&number);
        return;
    }
    let _ = tokens.insert(number, token);
}
