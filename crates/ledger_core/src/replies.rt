//! Lists of pairs and of replies.

ghost use Rattle.std.specs.Prelude.{◌≡◌};

use crate::{PairRow, Reply};
use sheet_base::Listed;
use std::marker::Model;

/// A list of pairs.
pub type PairList = Listed<PairRow>;

/// The replies to commands, in order; contracts see them as a list.
#[derive(Drop)]
pub struct Replies {
    pub(crate) replies: Vec<Reply>,
}

impl Model for Replies {
    ghost use Rattle.std.specs.Prelude.{List};
    ghost use Rattle.ledger_core.specs.declared.commands.Reply.{Reply as Answer};

    ghost Value = { List Answer };

    ghost view = { λ r. r.replies.items };
}

impl Replies {
    /// The list of the vector's replies. It takes no memory.
    pub fn of(items: Vec<Reply>) -> Self
        ensures { result ≡ items.items }
    {
        Replies { replies: items }
    }

    /// The replies, in order.
    pub fn items(&self) -> &[Reply]
        ensures { result.now ≡ self.now }
    {
        &self.replies
    }
}
