//! Law of chains: they are what the cut of a list into its longest pieces is.
ghost use Rattle.std.specs.Prelude.{◌≡◌, Bool, List};
ghost use Rattle.std.specs.List.{flat_map};
ghost use Rattle.cept_writer.specs.Chains.{AreLongest, chains, members};

/// One after the other the chains of a list are the list; in each of them each entry goes on from the
/// one before; and none goes on from the last entry of the chain before it. So there is no other cut
/// into chains.
pub fn chains_cut_where_none_goes_on<X>()
    ensures joined { (goes_on : X → X → Bool) (list : List X)
        → flat_map members (chains goes_on list) ≡ list }
    ensures longest { (goes_on : X → X → Bool) (list : List X)
        → AreLongest goes_on (chains goes_on list) }
{}
