// Which transitions are enabled: each of them owes a start. Of one that is not, which place is short.
ghost use Rattle.std.specs.Prelude.{◌≡◌, ◌<◌};
ghost use Rattle.model.specs.Rules.{lacking_place, is_enabled, short, has_no_start_owed};
ghost use Rattle.forms.specs.Word.{byte};
ghost use Rattle.forms.specs.Stored.{net_of, stored};
ghost use Rattle.forms.specs.States.{IsState};
ghost use Rattle.owed.specs.Marks.{FoundBelow};

use crate::{marks, weights};
use forms::checked::CheckedNet;
use forms::{places, words};
use model::answer::Short;

// The lowest place that lacks tokens for a start of transition t, or none.
pub fn lacking(net: CheckedNet, state: &[u8], t: usize) -> Option<usize>
    requires is_state { IsState (net_of net.bytes.now) state.now }
    requires t_bound { t < net.shape.transitions }
    ensures { FoundBelow net.entry.shape.places (lacking_place (net_of net.entry.bytes.now) (stored net.entry.bytes.now state.now) t) result }
{
    marks::short_place(weights::inputs(net, t), state)
}

// Transition t is enabled: no place lacks tokens.
pub fn enabled(net: CheckedNet, state: &[u8], t: usize) -> bool
    requires is_state { IsState (net_of net.bytes.now) state.now }
    requires t_bound { t < net.shape.transitions }
    ensures { result ≡ is_enabled (net_of net.entry.bytes.now) (stored net.entry.bytes.now state.now) t }
{
    lacking(net, state, t).is_none()
}

// What place p lacks for a start of transition t, where it is the place that `lacking` tells.
pub fn short(net: CheckedNet, state: &[u8], t: usize, p: usize) -> Short
    requires is_state { IsState (net_of net.bytes.now) state.now }
    requires t_bound { (t < net.shape.transitions) × (p < net.shape.places) × (p ≡ lacking_place (net_of net.bytes.now) (stored net.bytes.now state.now) t) }
    ensures { result ≡ short (net_of net.entry.bytes.now) (stored net.entry.bytes.now state.now) t }
{
    let weight = usize::from(weights::inputs(net, t)[p]);
    let lacks = weight - words::read16(state, places::mark_at(p));
    Short {
        place: p as u32,
        lacks: lacks as u32,
    }
}

// No transition is enabled.
pub fn no_start_owed(net: CheckedNet, state: &[u8]) -> bool
    requires { IsState (net_of net.bytes.now) state.now }
    ensures { result ≡ has_no_start_owed (net_of net.entry.bytes.now) (stored net.entry.bytes.now state.now) }
{
    (0..net.shape.transitions).all(|t| !enabled(net, state, t))
}
