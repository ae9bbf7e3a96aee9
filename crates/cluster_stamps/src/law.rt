// The rule of the stamp word, and what its steps tell.
use crate::view::{Size, Told, View};
use atomic_table::{Join, Play, Split, TableRule};
use std::marker::{Brand, PhantomData};

/// What was told is what the histories tell, each once.
pub struct Law;

impl TableRule<(), View, Size> for Law {
    ghost use Rattle.cluster_stamps.specs.Rule.{Rules, newcomer};

    ghost holds = { Rules };

    ghost first = { newcomer };
}

/// A stamp is drawn.
pub struct Draw;

impl Play<(), View> for Draw {
    ghost use Rattle.std.specs.Prelude.{◌≡◌};
    ghost use Rattle.cluster_stamps.specs.Rule.{Draws};

    ghost then = { λ s me n after. Draws me.0 n after.0 × (after.1 ≡ me.1) };
}

/// The pending stamp is dropped, since the call was refused for memory.
pub struct Forget;

impl Play<(), View> for Forget {
    ghost use Rattle.std.specs.Prelude.{◌≡◌};
    ghost use Rattle.cluster_stamps.specs.Rule.{Drops};

    ghost then = { λ s me n after. Drops me.0 n after.0 × (after.1 ≡ me.1) };
}

/// Names one request. Each call that has a request told picks it, so that no value of it has to be at hand.
pub trait Asking {
    ghost use Rattle.cluster_stamps.specs.declared.request.Request.{Request};

    ghost request: { Request };
}

impl Asking for Brand {
    ghost use Rattle.cluster_stamps.specs.Rule.{no_request};

    ghost request = { no_request };
}

/// Names one call.
pub trait Naming {
    ghost use Rattle.cluster_stamps.specs.declared.view.Told.{Told};

    ghost call: { Told };
}

impl Naming for Brand {
    ghost use Rattle.cluster_stamps.specs.Rule.{no_call};

    ghost call = { no_call };
}

/// A vnode refused a call, and its pass is told.
pub struct Note<N: Naming> {
    call: PhantomData<N>,
}

impl<N: Naming> Play<(), View> for Note<N> {
    ghost use Rattle.std.specs.Prelude.{◌≡◌};
    ghost use Rattle.cluster_stamps.specs.Rule.{TellsOf};

    ghost then = { λ s me n after. TellsOf N.call me.0 after.0 × (after.1 ≡ me.1) };
}

/// A vnode has a further entry.
pub struct Append<N: Naming> {
    call: PhantomData<N>,
}

impl<N: Naming> Play<(), View> for Append<N> {
    ghost use Rattle.std.specs.Prelude.{◌≡◌};
    ghost use Rattle.cluster_stamps.specs.Rule.{AppendsOf};

    ghost then = { λ s me n after. AppendsOf N.call me.0 after.0 × (after.1 ≡ me.1) };
}

/// The pass is told of its entry.
pub struct Settle;

impl Play<(), View> for Settle {
    ghost use Rattle.std.specs.Prelude.{◌≡◌};
    ghost use Rattle.cluster_stamps.specs.Rule.{Settles};

    ghost then = { λ s me n after. Settles me.0 after.0 × (after.1 ≡ me.1) };
}

/// Everything goes to the new seat.
pub struct All;

impl Split<View> for All {
    ghost use Rattle.cluster_stamps.specs.Rule.{nothing};

    ghost left = { λ v. nothing };

    ghost right = { λ v. v };
}

/// The pass goes to the new seat, and the history stays.
pub struct PassOff;

impl Split<View> for PassOff {
    ghost use Rattle.cluster_stamps.specs.Rule.{without_pass, pass_of};

    ghost left = { without_pass };

    ghost right = { pass_of };
}

/// One part goes to the new seat.
pub struct OnePart;

impl Split<View> for OnePart {
    ghost use Rattle.cluster_stamps.specs.Rule.{less_one, one_part};

    ghost left = { less_one };

    ghost right = { λ v. one_part };
}

/// The first history stays, and all else goes to the new seat.
pub struct FirstHistory;

impl Split<View> for FirstHistory {
    ghost use Rattle.cluster_stamps.specs.Rule.{less_history, first_history};

    ghost left = { first_history };

    ghost right = { less_history };
}

/// Two seats become one.
pub struct Both;

impl Join<View> for Both {
    ghost use Rattle.cluster_stamps.specs.Rule.{together, nothing};

    ghost both = { together };

    ghost spent = { nothing };
}

/// A seat that knows nothing.
pub struct Blank;

impl Play<(), View> for Blank {
    ghost use Rattle.std.specs.Prelude.{◌≡◌, []};
    ghost use Rattle.cluster_stamps.specs.Rule.{nothing};

    ghost then = { λ s me n after. after ≡ (nothing, []) };
}

/// A vnode shows how long its journal is, and nothing changes.
pub struct Look;

impl Play<(), View> for Look {
    ghost use Rattle.std.specs.Prelude.{◌≡◌};
    ghost use Rattle.cluster_stamps.specs.Rule.{Looks};

    ghost then = { λ s me n after. Looks me.0 after.0 × (after.1 ≡ me.1) };
}
