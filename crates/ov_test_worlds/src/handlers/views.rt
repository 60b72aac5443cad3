ghost use Rattle.std.specs.Prelude.{◌≤◌, length};

use crate::handlers::nodes::{Change, are, has, numbered, views_with};
use ov_ids::{BadParams, NodeId, Params};
use ov_test_kit::{sized, words};
use ov_views::{Changes, View, Views};
use ov_words::Draws;
use std::test::Fail;

fn is_refused(p: [u32; 7]) -> bool {
    Params::new(p[0], p[1], p[2], p[3], p[4], p[5], p[6]) == Err(BadParams)
}

#[test]
fn parameters_have_limits(rt: HostRuntime) {
    assert!(rt; Params::new(16, 64, 15, 15, 8, 8, 15).is_ok());
    for p in [
        [0, 30, 6, 3, 3, 4, 4],
        [5, 30, 6, 7, 3, 4, 4],
        [5, 30, 6, 3, 3, 4, 0],
    ] {
        assert!(rt; is_refused(p), "{p:?}");
    }
}

/// The changes are these, and no other follows.
fn are_told(changes: Changes, expected: &[Change]) -> bool {
    let mut changes = changes;
    for change in expected {
        let Some(told) = changes.next() else {
            return false;
        };
        if numbered(told) != *change {
            return false;
        }
    }
    changes.next().is_none()
}

/// Of two members number 5 mod 2 is dropped.
#[test]
fn a_full_active_view_drops_a_random_member(rt: HostRuntime) -> Result<(), Fail> {
    let words = words(&[5]);
    let mut views = views_with(1, sized(2, 30)?, &[3, 7], &[], &words);
    let mut draws = Draws::new(&words);
    let changes = views.add_active(NodeId(9), &mut draws);
    assert!(rt; are_told(changes, &[Change::Down(7), Change::Up(9)]));
    assert!(rt; has(&views, &[3, 9], &[7]) && draws.left() == 63);
    Ok(())
}

/// Of the active members two are sampled, and then all, and of the passive ones, of whom there are none, nobody.
fn are_sampled(views: &Views, draws: &mut Draws<'_>) -> bool
    requires { 40 ≤ length draws.old }
{
    let two = views.sample(View::Active, 2, draws);
    let all = views.sample(View::Active, 8, draws);
    let nobody = views.sample(View::Passive, 8, draws);
    are(two.as_slice(), &[9, 3]) && are(all.as_slice(), &[3, 7, 9]) && nobody.as_slice().is_empty()
}

#[test]
fn a_sample_is_in_the_order_of_picking(rt: HostRuntime) -> Result<(), Fail> {
    let words = words(&[5, 4]);
    let views = views_with(1, sized(5, 30)?, &[3, 7, 9], &[], &words);
    let mut draws = Draws::new(&words);
    assert!(rt; are_sampled(&views, &mut draws) && draws.left() == 59);
    Ok(())
}

#[test]
fn a_shuffle_gives_up_what_was_sent_first(rt: HostRuntime) -> Result<(), Fail> {
    let words = words(&[3]);
    let mut views = views_with(1, sized(5, 2)?, &[8], &[4, 6], &words);
    let mut draws = Draws::new(&words);
    let sent = [NodeId(1), NodeId(8), NodeId(4)];
    views.integrate(&[NodeId(5), NodeId(9)], &sent, &mut draws);
    assert!(rt; has(&views, &[8], &[5, 9]) && draws.left() == 63);
    Ok(())
}
