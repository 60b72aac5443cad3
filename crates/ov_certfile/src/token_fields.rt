//! Fields that are taken off the tokens of a text.
ghost use Rattle.std.specs.Prelude.{◌≡◌, IfOk, Some};
ghost use Rattle.serde_json.specs.Data.{member};
ghost use Rattle.ov_certfile.specs.Forms.{count_in, list_in};
ghost use Rattle.ov_certfile.specs.Kinds.{name_of};
ghost use Rattle.ov_certfile.specs.DataOf.{whole_data, list_data};
ghost use Rattle.ov_certfile.specs.Code.Tokens.{TakesValue, TakesMembers};

use crate::field_reading_and_writing::Field;
use crate::file_keys::Key;
use crate::token_keys::take_key;
use crate::token_stop::Stop;
use ov_ids::{NodeId, Seq};
use ov_tokens::TokenCursor;
use std::alloc::Global;

/// A field that can be taken off the tokens of a text.
pub(crate) trait TokenField: Field {
    ghost use Rattle.std.specs.Prelude.{◌≡◌, IfOk, Some};
    ghost use Rattle.ov_certfile.specs.Code.Tokens.{TakesValue};

    /// Takes a field whose value is written as `write_to` writes it, but for white space.
    fn take(alloc: Global, cursor: &mut TokenCursor<'_>) -> Result<Self, Stop>
    where
        Self: Sized,
        ensures taken { IfOk result (λ x. TakesValue (Self.as_data x) cursor.old cursor.new) }
        ensures reads_back { IfOk result (λ x. Self.form (Self.as_data x) ≡ Some x) };
}

impl TokenField for NodeId {
    fn take(_alloc: Global, cursor: &mut TokenCursor<'_>) -> Result<NodeId, Stop> {
        let number = cursor.number()?;
        Ok(NodeId(number))
    }
}

impl TokenField for (NodeId, NodeId) {
    fn take(alloc: Global, cursor: &mut TokenCursor<'_>) -> Result<(NodeId, NodeId), Stop> {
        cursor.begin_array()?;
        let low = NodeId::take(alloc, cursor)?;
        let high = NodeId::take(alloc, cursor)?;
        if !cursor.end_array() {
            return Err(Stop::OtherForm);
        }
        Ok((low, high))
    }
}

impl<T: TokenField> TokenField for Seq<T> {
    fn take(alloc: Global, cursor: &mut TokenCursor<'_>) -> Result<Seq<T>, Stop> {
        let items = take_list(alloc, cursor)?;
        Ok(Seq::new(items))
    }
}

/// Takes the array of some fields.
fn take_list<T: TokenField>(alloc: Global, cursor: &mut TokenCursor<'_>) -> Result<Vec<T>, Stop>
    ensures taken { IfOk result (λ v. TakesValue (list_data T.as_data v.items) cursor.old cursor.new) }
    ensures reads_back { IfOk result (λ v. list_in T.form (list_data T.as_data v.items) ≡ Some v.items) }
{
    let mut items = Vec::new(alloc);
    cursor.begin_array()?;
    'items: while !cursor.end_array() {
        let item = T::take(alloc, cursor)?;
        items.push(item)?;
    }
    Ok(items)
}

/// Takes the member of a field.
#[tactic(auto, using(crate::proofs::Taking::member_taken))]
pub(crate) fn take_member<T: TokenField>(
    alloc: Global,
    cursor: &mut TokenCursor<'_>,
    key: Key,
) -> Result<T, Stop>
    ensures taken { IfOk result (λ x. TakesMembers (member (name_of key) (T.as_data x)) cursor.old cursor.new) }
    ensures reads_back { IfOk result (λ x. T.form (T.as_data x) ≡ Some x) }
{
    take_key(cursor, key)?;
    let field = T::take(alloc, cursor)?;
    Ok(field)
}

/// Takes the member of a whole number.
#[tactic(auto, using(crate::proofs::Taking::member_taken))]
pub(crate) fn take_count(cursor: &mut TokenCursor<'_>, key: Key) -> Result<u32, Stop>
    ensures taken { IfOk result (λ n. TakesMembers (member (name_of key) (whole_data n)) cursor.old cursor.new) }
    ensures reads_back { IfOk result (λ n. count_in (whole_data n) ≡ Some n) }
{
    take_key(cursor, key)?;
    let number = cursor.number()?;
    Ok(number)
}
