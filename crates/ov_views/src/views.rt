ghost use Rattle.std.specs.Prelude.{◌≡◌, ◌≤◌, ◌<◌, ◌+◌, ◌↔◌, ℕ, List, [], ◌∷◌, Some, None, length, min};
ghost use Rattle.std.specs.Prelude.{◌==◌, not, slice_get, IsTrue, IfSome, IfNone};
ghost use Rattle.std.specs.List.{list_all};
ghost use Rattle.ov_ids.specs.Members.{Has};
ghost use Rattle.ov_ids.specs.Sets.{IsSet, has, without_all};
ghost use Rattle.ov_words.specs.Pick.{AreDrawn, Drawn, Suffice};
ghost use Rattle.ov_views.specs.ViewsState.{ViewsState, AreViews, has_place, is_close, members};
ghost use Rattle.ov_views.specs.Changes.{AddsPassive, DropsRandom, AddsActive, RemovesActive, Forgets};
ghost use Rattle.ov_views.specs.Code.ChangeOrder.{in_order};
ghost use Rattle.ov_views.specs.Code.LeftOf.{left_of};
ghost use Rattle.ov_views.specs.Sampling.{Samples, GivesUp, TakesIn, Integrates};
ghost use Rattle.ov_views.specs.declared.change.ViewChange.{ViewChange};

use crate::{Changes, Sample};
use ov_ids::{IdSet, MOST_ACTIVE, MOST_MEMBERS, NodeId, Params};
use ov_words::Draws;
use std::marker::Model;

/// One of a node's two views (HyParView: Leitão, Pereira, Rodrigues, DSN 2007).
#[derive(Clone, Copy, Debug, PartialEq, Eq)]
pub enum View {
    /// The nodes that the node exchanges messages with.
    Active,
    /// The nodes that it knows as substitutes for active members.
    Passive,
}

/// A node's active and passive view. Each is within its size and lacks the node itself, and they share no member.
/// Nothing is allocated for them. Contracts see them as a `ViewsState`.
#[derive(Drop)]
pub struct Views {
    me: NodeId,
    params: Params,
    active: IdSet,
    passive: IdSet,
}

impl Model for Views {
    ghost use Rattle.ov_views.specs.ViewsState.{ViewsState, AreViews};

    ghost Value = { ViewsState };

    ghost view = { λ a. record { me = a.me; params = a.params; active = a.active; passive = a.passive } };

    ghost invariant = { λ a. AreViews
        (record { me = a.me; params = a.params; active = a.active; passive = a.passive }) };
}

impl Views {
    /// The views of a node that knows nobody yet. Nothing is allocated.
    pub fn new(me: NodeId, params: Params) -> Views
        ensures { result ≡ record { me = me; params = params; active = []; passive = [] } }
    {
        Views {
            me,
            params,
            active: IdSet::new(),
            passive: IdSet::new(),
        }
    }

    /// Equal views. Nothing is allocated.
    pub fn copy(&self) -> Views
        ensures { result ≡ self.now }
    {
        Views {
            me: self.me,
            params: self.params,
            active: self.active.copy(),
            passive: self.passive.copy(),
        }
    }

    /// Becomes equal views. Only the members are copied.
    pub fn copy_from(&mut self, other: &Views)
        ensures { self.new ≡ other.now }
    {
        self.me = other.me;
        self.params = other.params;
        self.active.copy_from(&other.active);
        self.passive.copy_from(&other.passive);
    }

    /// The node whose views these are.
    pub fn me(&self) -> NodeId
        ensures value { result ≡ self.now.me }
        ensures views { AreViews self.now }
    {
        self.me
    }

    /// The node's parameters, which give the sizes of the views.
    pub fn params(&self) -> Params
        ensures value { result ≡ self.now.params }
        ensures views { AreViews self.now }
    {
        self.params
    }

    /// The active view, ascending.
    pub fn active(&self) -> &[NodeId]
        ensures value { result.now ≡ self.now.active }
        ensures views { AreViews self.now }
    {
        self.active.as_slice()
    }

    /// The passive view, ascending.
    pub fn passive(&self) -> &[NodeId]
        ensures value { result.now ≡ self.now.passive }
        ensures views { AreViews self.now }
    {
        self.passive.as_slice()
    }

    /// Whether the node is active.
    pub fn is_active(&self, id: NodeId) -> bool
        ensures member { IsTrue result ↔ Has self.now.active id }
        ensures value { result ≡ has self.now.active id }
    {
        self.active.contains(id)
    }

    /// Whether a place is free in the active view: it has fewer members than its size.
    pub fn has_place(&self) -> bool
        ensures { result ≡ has_place self.now }
    {
        self.active.len() < self.params.active()
    }

    /// The members of a view without these ids, as a set of its own. Nothing is allocated.
    pub fn all_but(&self, view: View, ids: &[NodeId]) -> IdSet
        ensures value { result ≡ without_all ids.now (members view self.now) }
        ensures set { IsSet result }
        ensures fits { length result ≤ length (members view self.now) }
    {
        let mut rest = self.set_of(view).copy();
        for id in ids {
            rest.remove(*id);
        }
        rest
    }

    /// The members of a view.
    #[inline(always)]
    fn set_of(&self, view: View) -> &IdSet
        ensures { result.now ≡ members view self.now }
    {
        match view {
            View::Active => &self.active,
            View::Passive => &self.passive,
        }
    }

    /// Picks a random active member that is none of these nodes, by one random word, as a walk does that goes on. None
    /// if there is no such member, and then no word is used. Nothing is allocated.
    #[inline(always)]
    pub fn pick_but(&self, ids: &[NodeId], draws: &mut Draws<'_>) -> Option<NodeId>
        requires { 0 < length draws.old }
        ensures drawn { IfSome result (λ d. AreDrawn (record {
          from = without_all ids.now self.now.active;
          member = d;
        } ∷ []) draws.old draws.new) }
        ensures empty { result ≡ None ↔ without_all ids.now self.now.active ≡ [] }
        ensures no_word { IfNone result (draws.new ≡ draws.old) }
    {
        let members = self.active.as_slice();
        let mut others = [NodeId(0); MOST_ACTIVE as usize];
        let mut count = 0;
        for member in members {
            others[count] = *member;
            if is_none_of(*member, ids) {
                count += 1;
            }
        }
        draws.pick(&others[..count])
    }

    /// Whether the id is the node itself or active.
    fn is_close(&self, id: NodeId) -> bool
        ensures close { result ≡ is_close self.now id }
        ensures views { AreViews self.now }
    {
        id == self.me || self.active.contains(id)
    }

    /// Adds a node to the active view, unless it is the node itself or active already. The node leaves the passive
    /// view. If the active view is full, a random member is dropped first, as by `drop_random`. Returns which nodes
    /// went down and came up. At most two random words are used, and one must be left for each pick. (HyParView's
    /// `addNodeActiveView`. That the node leaves the passive view, and does so first, is chosen here.)
    pub fn add_active(&mut self, id: NodeId, draws: &mut Draws<'_>) -> Changes
        requires { Suffice draws.old (λ choices. (w : ViewsState) × (changes : List ViewChange)
            × AddsActive self.old id choices w changes) }
        ensures drawn { Drawn draws.old draws.new (λ choices. AddsActive self.old id choices self.new result) }
        ensures words { length draws.old ≤ length draws.new + 2 }
        ensures few { length result ≤ 2 }
    {
        if self.is_close(id) {
            return Changes::new(None, None);
        }
        self.passive.remove(id);
        if self.active.len() < self.params.active() {
            self.active.insert(id);
            return Changes::new(None, Some(id));
        }
        let down = self.drop_one(draws);
        self.active.insert(id);
        Changes::new(down, Some(id))
    }

    /// Drops a random active member, if there is one: it goes down, and then it is added to the passive view. Returns
    /// which node went down. At most two random words are used, and one must be left for each pick. (HyParView's
    /// `dropRandomElementFromActiveView`.)
    pub fn drop_random(&mut self, draws: &mut Draws<'_>) -> Changes
        requires { Suffice draws.old (λ choices. (w : ViewsState) × (changes : List ViewChange)
            × DropsRandom self.old choices w changes) }
        ensures drawn { Drawn draws.old draws.new (λ choices. DropsRandom self.old choices self.new result) }
        ensures words { length draws.old ≤ length draws.new + 2 }
        ensures few { length result ≤ 1 }
    {
        Changes::new(self.drop_one(draws), None)
    }

    /// Drops a random active member, if there is one.
    fn drop_one(&mut self, draws: &mut Draws<'_>) -> Option<NodeId>
        requires { Suffice draws.old (λ choices. (w : ViewsState) × (changes : List ViewChange)
            × DropsRandom self.old choices w changes) }
        ensures drawn { Drawn draws.old draws.new
            (λ choices. DropsRandom self.old choices self.new (in_order result None)) }
        ensures words { length draws.old ≤ length draws.new + 2 }
    {
        let dropped = draws.pick(self.active.as_slice())?;
        self.active.remove(dropped);
        self.add_passive(dropped, draws);
        Some(dropped)
    }

    /// Takes a node out of the active view, if it is there. Returns that it went down.
    pub fn remove_active(&mut self, id: NodeId) -> Changes
        ensures removed { RemovesActive self.old id self.new result }
        ensures few { length result ≤ 1 }
    {
        let down = self.active.take(id).then_some(id);
        Changes::new(down, None)
    }

    /// Takes a node out of the view that has it, if one has. If that was the active view, returns that it went down.
    pub fn forget(&mut self, id: NodeId) -> Changes
        ensures forgotten { Forgets self.old id self.new result }
        ensures few { length result ≤ 1 }
    {
        self.passive.remove(id);
        self.remove_active(id)
    }

    /// Adds a node to the passive view, unless it is the node itself, active or passive. If that view is full, a random
    /// member goes out. At most one random word is used, and one must be left for that pick. (HyParView's
    /// `addNodePassiveView`.)
    pub fn add_passive(&mut self, id: NodeId, draws: &mut Draws<'_>)
        requires { Suffice draws.old (λ choices. (w : ViewsState) × AddsPassive self.old id choices w) }
        ensures drawn { Drawn draws.old draws.new (λ choices. AddsPassive self.old id choices self.new) }
        ensures words { length draws.old ≤ length draws.new + 1 }
    {
        self.take_in(id, &[], draws);
    }

    /// Takes the ids of a shuffle into the passive view, in order. The node itself and the members of either view are
    /// passed over. If the passive view is full, an id takes the place of the next id in `sent` that is passive, or, if
    /// there is none, of a random member. `sent` is walked once: an id that was passed over is not looked at again. At
    /// most one random word is used for each id, and one must be left for each pick, whoever is picked. (That the
    /// members sent go first is HyParView's; how `sent` is walked is chosen here.)
    pub fn integrate(&mut self, ids: &[NodeId], sent: &[NodeId], draws: &mut Draws<'_>)
        requires { Suffice draws.old (λ choices. (w : ViewsState) × Integrates self.old ids.now sent.now choices w) }
        ensures drawn { Drawn draws.old draws.new (λ choices. Integrates self.old ids.now sent.now choices self.new) }
        ensures words { length draws.old ≤ length draws.new + length ids.now }
    {
        prove!(self.params.passive() >= 1);
        let mut left = sent;
        for id in ids {
            left = self.take_in(*id, left, draws);
        }
    }

    /// Takes one id of a shuffle in. Returns what is left of `sent`.
    fn take_in<'s>(&mut self, id: NodeId, sent: &'s [NodeId], draws: &mut Draws<'_>) -> &'s [NodeId]
        requires { Suffice draws.old (λ choices. (w : ViewsState) × (left : List ℕ)
            × TakesIn self.old id sent.now choices w left) }
        ensures drawn { Drawn draws.old draws.new
            (λ choices. TakesIn self.old id sent.now choices self.new result.now) }
        ensures words { length draws.old ≤ length draws.new + 1 }
    {
        if self.is_close(id) {
            return sent;
        }
        let Some(gap) = self.passive.gap(id) else {
            return sent;
        };
        if self.passive.len() < self.params.passive() {
            self.passive.insert_at(gap, id);
            return sent;
        }
        let (place, left) = give_up(&self.passive, sent, draws);
        self.passive.replace_at(place, gap, id);
        left
    }

    /// Picks `count` members of a view at random, or all if it has fewer. They are picked one after another, each from
    /// those not picked yet, with one random word each. (HyParView samples its views at random; how a sample is drawn
    /// is chosen here.)
    pub fn sample(&self, view: View, count: usize, draws: &mut Draws<'_>) -> Sample
        requires { min count (length (members view self.now)) ≤ length draws.old }
        ensures drawn { Drawn draws.old draws.new (λ choices. Samples (members view self.now) count choices result) }
        ensures words { length draws.old ≡ length draws.new + length result }
    {
        let set = self.set_of(view);
        let mut taken = [0; MOST_MEMBERS];
        let mut picked = Sample::new();
        for i in 0..count.min(set.len()) {
            let place = draws.place(set.len() - i);
            picked.push(left_member(set.as_slice(), &taken[..i], place));
            taken[i] = place as u8;
        }
        picked
    }
}

/// Whether a node is none of these.
#[inline(always)]
fn is_none_of(node: NodeId, ids: &[NodeId]) -> bool
    ensures { result ≡ list_all (λ id. not (node == id)) ids.now }
{
    ids.iter().all(|id| node != *id)
}

/// The place of the passive member to give up for a new one, counted from 0 in ascending order, and what is then left
/// of `sent`.
fn give_up<'s>(passive: &IdSet, sent: &'s [NodeId], draws: &mut Draws<'_>) -> (usize, &'s [NodeId])
    requires some { 0 < length passive.now }
    requires words { Suffice draws.old (λ choices. (d : ℕ) × (left : List ℕ)
        × GivesUp passive.now sent.now d left choices) }
    ensures within { result.0 < length passive.now }
    ensures drawn { (d : ℕ) → slice_get passive.now result.0 ≡ Some d → Drawn draws.old draws.new
        (λ choices. GivesUp passive.now sent.now d result.1.now choices) }
    ensures words { length draws.old ≤ length draws.new + 1 }
{
    let mut left = sent;
    while let Some((next, rest)) = left.split_first() {
        match passive.member_place(*next) {
            Some(place) => return (place, rest),
            None => left = rest,
        }
    }
    let place = draws.place(passive.len());
    (place, left)
}

/// The member at a place among those that are left of a set. `taken` are the places of the others, which were taken out
/// one after another. Each place is counted from 0 among those that were left then.
fn left_member(set: &[NodeId], taken: &[u8], place: usize) -> NodeId
    requires { place + length taken.now < length set.now }
    ensures { slice_get (left_of set.now taken.now) place ≡ Some result }
{
    let mut before = place;
    let mut others = taken;
    while let Some((last, earlier)) = others.split_last() {
        if *last as usize <= before {
            before += 1;
        }
        others = earlier;
    }
    set[before]
}
