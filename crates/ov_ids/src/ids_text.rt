use crate::NodeId;
use std::fmt::{Display, Formatter, Result, Write};

/// Ids with commas between them, or a dash if there are none.
#[derive(Drop)]
pub struct IdsText<'a>(pub &'a [NodeId]);

impl<'a> Display for IdsText<'a> {
    ghost use Rattle.std.specs.Prelude.{Some};
    ghost use Rattle.ov_ids.specs.Text.{ids_text};

    ghost output = { λ t. Some (ids_text t.0.now) };

    fn fmt<W: Write>(&self, f: &mut Formatter<W>) -> Result {
        let Some((first, rest)) = self.0.split_first() else {
            return write!(f, "-");
        };
        let number = first.number();
        write!(f, "{number}")?;
        for id in rest {
            let number = id.number();
            write!(f, ",{number}")?;
        }
        Ok(())
    }
}
