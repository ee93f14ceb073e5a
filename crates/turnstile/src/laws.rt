//! What the rule of a turnstile says, as laws.
ghost use Rattle.std.specs.Prelude.{◌≡◌, ℕ, Option, true};
ghost use mathlib.Core.Option.{some};
ghost use lib.ListN.{get_elem?};
ghost use Rattle.atomic_table.specs.Table.{State};
ghost use Rattle.turnstile.specs.Turns.{Stays, Kept, View, AtMostOneInside, IsFree, ValueAtHome};

use crate::named::Named;

/// In each state that the rule allows, which is each moment between two atomic steps, at most one pass is inside.
pub fn one_inside<T: Named>()
    ensures { (made : T) (s : State (Option T) (View T)) → Kept (Stays T.name T.reached T.follows T.whole made) s → AtMostOneInside s }
{}

/// In each state that the rule allows in which the flag is 0, the value is at home in slot 0, has the name of the value with which the turnstile was made, follows it, and is whole.
pub fn value_at_home<T: Named>()
    ensures { (made : T) (s : State (Option T) (View T)) → Kept (Stays T.name T.reached T.follows T.whole made) s → IsFree s → ValueAtHome (Stays T.name T.reached T.follows T.whole made) s }
{}
