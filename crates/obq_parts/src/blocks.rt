//! How a block goes on behind an item, and the arms of an `if` or a `try`.

ghost use Rattle.std.specs.Prelude.{◌≡◌, [], ◌∷◌, ◌++◌, IfOk};
ghost use Rattle.obq_model.specs.Nodes.{next};
ghost use Rattle.obq_grammar.specs.Follow.{EndsItem};
ghost use Rattle.obq_parts.specs.Blocks.{GoesOn, IsShorterOnward};

use crate::steps::{ends_block, take_word};
use crate::words::SEMICOLON;
use obq_base::{Arm, NoMemory, Token};
use sqlite_items::Items;

/// How a block goes on behind an item.
pub enum Onward<'a> {
    /// With another item, which begins with these tokens.
    Item(&'a [Token]),
    /// It ends; a `;` may stand between the item and these tokens.
    End(&'a [Token]),
}

/// How the block of an item goes on with the tokens behind the item.
pub fn behind_item(tokens: &[Token]) -> Onward<'_>
    requires { EndsItem (next tokens.now) }
    ensures onward { GoesOn tokens.now result }
    ensures shorter { IsShorterOnward tokens.now result }
{
    let Some((_, behind)) = take_word(SEMICOLON, tokens) else {
        return Onward::End(tokens);
    };
    if ends_block(behind) {
        return Onward::End(behind);
    }
    Onward::Item(behind)
}

/// The arms, and one behind them.
pub fn with_arm(arms: Items<Arm>, arm: Arm) -> Result<Items<Arm>, NoMemory>
    ensures { IfOk result (λ all. all ≡ arms ++ arm ∷ []) }
{
    let mut all = arms;
    all.push(arm)?;
    Ok(all)
}
