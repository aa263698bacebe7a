// What is given to a call, examined in document 01's order: net, state, log. The net is found with its shape once, and handed on.
ghost use Rattle.std.specs.Prelude.{◌≡◌};
ghost use Rattle.engine.specs.Examined.{examine_state, examine_log, Finds};

use forms::checked::CheckedNet;
use forms::fault::Fault;
use forms::{log, state};

// A net and a state of it: 1 to 6, 8, 9.
#[tactic(auto, unfolding(crate::specs::Examined::examine_net, crate::specs::Examined::examine_state))]
pub fn examine_state<'a>(net: &'a [u8], state: &[u8]) -> Result<CheckedNet<'a>, Fault>
    ensures { Finds net.entry (examine_state net.now state.now) result }
{
    let net = CheckedNet::of(net)?;
    state::check_state(net, state)?;
    Ok(net)
}

// A net, a state of it, and a log: 1 to 6, 8, 9, 10.
#[tactic(auto, unfolding(crate::specs::Examined::examine_log))]
pub fn examine_log<'a>(net: &'a [u8], state: &[u8], log: &[u8]) -> Result<CheckedNet<'a>, Fault>
    ensures { Finds net.entry (examine_log net.now state.now log.now) result }
{
    let net = examine_state(net, state)?;
    log::check_log(log)?;
    Ok(net)
}
