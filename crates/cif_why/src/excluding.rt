//! The exclusions that forbid an event (CIF 3 language reference, "Invariants").

ghost use Rattle.std.specs.Prelude.{◌≡◌, ◌++◌, ◌<◌, ◌^◌, pos, length, map, OnOk};
ghost use Rattle.cif_system.specs.System.{IsState};
ghost use Rattle.cif_net_model.specs.Meaning.{system_of_net};
ghost use Rattle.cif_why_model.specs.Reasons.{each_of, excluded, forbids};
ghost use Rattle.cif_net_expr.specs.View.{view};
ghost use Rattle.cif_net.specs.View.{exclusion_tree, net_tree, state_tree};
ghost use Rattle.cif_net_model.specs.Safe.{IsSafe};
ghost use Rattle.cif_value.specs.Settings.{told};
ghost use Rattle.cif_why.specs.Lists.{each_from};
ghost use Rattle.cif_why.specs.Parties.{AreSafeExclusions, is_forbidden};
ghost use Rattle.cif_why.specs.View.{reason_tree};

use crate::reason::{Reason, add_if};
use cif_base::{Items, Memory};
use cif_net::{Exclusion, Plain, State};
use cif_value::holds;

/// Adds the exclusions that forbid an event.
fn add_excluding(
    exclusions: &[Exclusion],
    state: &State,
    event: u32,
    all: &mut Items<Reason>,
) -> Result<(), Memory>
    requires few { length exclusions.now < 2 ^ 32 }
    requires safe { AreSafeExclusions (told state.now (pos 0)) (map exclusion_tree exclusions.now) }
    ensures { OnOk result (map reason_tree all.new ≡ map reason_tree all.old ++ each_from excluded (λ k. is_forbidden (told state.now (pos 0)) event) 0 (map exclusion_tree exclusions.now)) }
{
    for (number, exclusion) in exclusions.iter().enumerate() {
        let forbids = forbids(exclusion, state, event);
        add_if(
            all,
            forbids,
            Reason::Excluded {
                exclusion: number as u32,
            },
        )?;
    }
    Ok(())
}

fn forbids(exclusion: &Exclusion, state: &State, event: u32) -> bool
    requires { IsSafe (told state.now (pos 0)) (view exclusion.now.pred) }
    ensures { result ≡ is_forbidden (told state.now (pos 0)) event (exclusion_tree exclusion.now) }
{
    exclusion.event == event && holds(&exclusion.pred, state) != exclusion.allows
}

/// Adds the exclusions of a net that forbid an event.
pub(crate) fn add_excluded(
    plain: &Plain,
    state: &State,
    event: u32,
    all: &mut Items<Reason>,
) -> Result<(), Memory>
    requires { IsState (system_of_net (net_tree plain.now.net)) (state_tree state.now) }
    ensures { OnOk result (map reason_tree all.new ≡ map reason_tree all.old
        ++ each_of excluded (λ x. forbids event (state_tree state.now) x.1) (system_of_net (net_tree plain.now.net)).exclusions) }
{
    add_excluding(plain.net.exclusions.as_slice(), state, event, all)
}
