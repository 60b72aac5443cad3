ghost use Rattle.std.specs.Prelude.{◌≡◌, ℕ, Some, IfOk, OnOk, if◌then◌else◌};
ghost use Rattle.std.specs.Ordering.{nat_cmp};
ghost use Rattle.std.specs.BTreeMap.{get};
ghost use Rattle.ov_ids.specs.Sets.{has};
ghost use Rattle.ov_drawing.specs.Code.Named.{named_class, SaysClasses};
ghost use Rattle.ov_drawing.specs.Code.Tables.{class_in};

use crate::node_and_link_classes::NodeClass;
use ov_cert::{Cert, Split};
use ov_ids::{NodeId, OutOfMemory};
use std::alloc::Global;
use std::collections::BTreeMap;

/// The classes that a certificate gives nodes.
#[derive(Drop)]
pub(crate) struct Classes {
    /// The classes of the nodes that the certificate names.
    named: BTreeMap<NodeId, NodeClass>,
    /// The class of all other nodes.
    other: NodeClass,
}

impl Classes {
    /// The classes that this certificate gives.
    pub(crate) fn new(alloc: Global, cert: &Cert) -> Result<Classes, OutOfMemory>
        ensures { IfOk result (SaysClasses cert.now) }
    {
        match cert {
            Cert::Linked { .. } => Ok(Classes {
                named: BTreeMap::new(alloc),
                other: NodeClass::Unparted,
            }),
            Cert::Split(split) => Ok(Classes {
                named: named_classes(alloc, split)?,
                other: NodeClass::FarSide,
            }),
        }
    }

    /// The class of a node.
    pub(crate) fn of(&self, node: NodeId) -> NodeClass
        ensures { result ≡ class_in self.now node }
    {
        match self.named.get(&node) {
            Some(class) => *class,
            None => self.other,
        }
    }
}

/// The classes of the nodes that a split names. A node that it names in several places has the class that is put last.
fn named_classes(alloc: Global, split: &Split) -> Result<BTreeMap<NodeId, NodeClass>, OutOfMemory>
    ensures { IfOk result (λ classes. (n : ℕ) → get nat_cmp classes n ≡ named_class split.now n) }
{
    let mut classes = BTreeMap::new(alloc);
    put_all(&mut classes, split.side.as_slice(), NodeClass::NearSide)?;
    classes.insert(split.far, NodeClass::Far)?;
    classes.insert(split.near, NodeClass::Near)?;
    put_all(&mut classes, split.cut.as_slice(), NodeClass::Cut)?;
    Ok(classes)
}

/// Puts this class at each of these ids, in place of one that is there.
fn put_all(
    classes: &mut BTreeMap<NodeId, NodeClass>,
    ids: &[NodeId],
    class: NodeClass,
) -> Result<(), OutOfMemory>
    ensures { OnOk result ((n : ℕ) → get nat_cmp classes.new n
        ≡ (if has ids.now n then Some class else get nat_cmp classes.old n)) }
{
    for id in ids {
        classes.insert(*id, class)?;
    }
    Ok(())
}
