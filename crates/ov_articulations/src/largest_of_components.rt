ghost use Rattle.std.specs.Prelude.{◌≡◌, ◌<◌, [], Some, length, slice_get};
ghost use Rattle.ov_graph.specs.Links.{HasNode, LinkGraph};
ghost use Rattle.ov_graph.specs.Components.{IsLargest};
ghost use Rattle.ov_components.specs.Components.{AreComponents};

use ov_components::Components;
use ov_ids::NodeId;

/// The largest of these components, the first of several as large; empty without components.
pub(crate) fn largest_of(components: &Components) -> &[NodeId]
    ensures { (g : LinkGraph) → HasNode g → AreComponents g [] components.now → IsLargest g result.now }
{
    let mut largest: &[NodeId] = &[];
    for place in 0..components.len() {
        let component = component_at(components, place);
        if component.len() > largest.len() {
            largest = component;
        }
    }
    largest
}

/// The component at a place, which must be one.
pub(crate) fn component_at(components: &Components, place: usize) -> &[NodeId]
    requires { place < length components.now }
    ensures { slice_get components.now place ≡ Some result.now }
{
    match components.get(place) {
        Some(component) => component,
        None => unreachable!(),
    }
}
