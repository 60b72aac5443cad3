ghost use Rattle.std.specs.Prelude.{◌≡◌};
ghost use Rattle.ov_drawing.specs.Classes.{band_of, link_class};

/// What a node is in a certificate.
#[derive(Clone, Copy, Debug, PartialEq, Eq)]
pub enum NodeClass {
    /// A node of a linked certificate, which parts no nodes.
    Unparted,
    /// The member that is cut off from `Far`.
    Near,
    /// Another node of the side that is cut off.
    NearSide,
    /// A node whose crash splits the group, together with the others of the cut.
    Cut,
    /// The member that is cut off from `Near`.
    Far,
    /// Another survivor outside the side. It need not be joined to `Far`.
    FarSide,
}

/// A part of a picture.
#[derive(Clone, Copy, Debug, PartialEq, Eq)]
pub enum Band {
    /// All nodes of a linked certificate.
    Whole,
    /// The side that is cut off.
    Side,
    /// The nodes of the cut.
    Cut,
    /// All other survivors.
    Far,
}

/// What a link is in a certificate, by the parts that its ends are in.
#[derive(Clone, Copy, Debug, PartialEq, Eq)]
pub enum LinkClass {
    /// A link of a linked certificate.
    Unparted,
    /// Both ends are on the side.
    WithinSide,
    /// One end is on the side, and one in the cut.
    SideToCut,
    /// Both ends are in the cut.
    WithinCut,
    /// One end is in the cut, and one is a survivor outside the side.
    CutToFar,
    /// Both ends are survivors outside the side.
    WithinFar,
    /// One end is on the side, and one is a survivor outside it. A valid certificate has no such link.
    Across,
}

impl NodeClass {
    /// The part of the picture that a node of this class is in.
    pub fn band(self) -> Band
        ensures { result ≡ band_of self }
    {
        match self {
            NodeClass::Unparted => Band::Whole,
            NodeClass::Near | NodeClass::NearSide => Band::Side,
            NodeClass::Cut => Band::Cut,
            NodeClass::Far | NodeClass::FarSide => Band::Far,
        }
    }
}

/// The class of a link whose ends are in these parts.
pub(crate) fn link_class(a: Band, b: Band) -> LinkClass
    ensures { result ≡ link_class a b }
{
    match (a, b) {
        (Band::Side, Band::Side) => LinkClass::WithinSide,
        (Band::Side, Band::Cut) | (Band::Cut, Band::Side) => LinkClass::SideToCut,
        (Band::Cut, Band::Cut) => LinkClass::WithinCut,
        (Band::Cut, Band::Far) | (Band::Far, Band::Cut) => LinkClass::CutToFar,
        (Band::Far, Band::Far) => LinkClass::WithinFar,
        (Band::Side, Band::Far) | (Band::Far, Band::Side) => LinkClass::Across,
        _ => LinkClass::Unparted,
    }
}
