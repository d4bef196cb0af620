//! A list of commands, obeyed in turn over a keeper.

ghost use Rattle.std.specs.Prelude.{◌≡◌, ◌+◌, ◌≤◌, ◌<◌, ◌++◌, [], ℕ, List, Some, length, vec_len, vec_capacity, IfErr};
ghost use Rattle.ledger_core.specs.declared.limits.TheConstants.{MOST_COMMANDS};
ghost use Rattle.ledger_core.specs.declared.commands.Command.{Command as Asked};
ghost use Rattle.ledger_core.specs.Histories.{StandsFor, ObeysFirst, obeyed_of};
ghost use Rattle.ledger_core.specs.Causes.{HasStopCause};

use crate::{Command, KeepFault, Keeper, Replies, Reply, Stop, obey};
use std::alloc::Global;

// Obeys commands in turn, and adds their replies in room that is there.
fn obey_into<K: Keeper>(
    alloc: Global,
    keeper: &mut K,
    commands: &[Command],
    replies: &mut Vec<Reply>,
) -> Result<(), Stop>
    requires few { length commands.now < MOST_COMMANDS }
    requires room { vec_len replies.old + length commands.now ≤ vec_capacity replies.old }
    ensures obeyed { (history : List Asked) → StandsFor (K.kept keeper.old) history → ObeysFirst history commands.now
        (obeyed_of (length commands.now) result) (K.kept keeper.new) replies.old.items replies.new.items }
    ensures within { IfErr result (λ stop. stop.at < length commands.now) }
    ensures cause { HasStopCause (K.faults keeper.old) (K.faults keeper.new) result }
{
    let mut at = 0;
    for command in commands {
        match obey(alloc, keeper, command) {
            Ok(reply) => {
                let _ = replies.push(reply);
            }
            Err(fault) => return Err(Stop { at, fault }),
        }
        at += 1;
    }
    Ok(())
}

/// Obeys commands in turn over a keeper, and adds their replies. It takes the room for the replies first.
pub fn obey_all<K: Keeper>(
    alloc: Global,
    keeper: &mut K,
    commands: &[Command],
    replies: &mut Replies,
) -> Result<(), Stop>
    requires { length commands.now < MOST_COMMANDS }

    // Where the keeper stands for a history, the replies of this many commands were added, and the keeper then stands
    // for the history and those of them that were accepted. That is all commands, or those before the one that
    // stopped.
    ensures obeyed { (history : List Asked) → StandsFor (K.kept keeper.old) history → ObeysFirst history commands.now
        (obeyed_of (length commands.now) result) (K.kept keeper.new) replies.old replies.new }
    ensures within { IfErr result (λ stop. stop.at ≤ length commands.now) }

    // It stops for a fault only where the keeper's count rose; without one the count is as it was.
    ensures cause { HasStopCause (K.faults keeper.old) (K.faults keeper.new) result }
{
    if replies.replies.reserve(commands.len()).is_err() {
        return Err(Stop {
            at: 0,
            fault: KeepFault::NoMemory,
        });
    }
    obey_into(alloc, keeper, commands, &mut replies.replies)
}
