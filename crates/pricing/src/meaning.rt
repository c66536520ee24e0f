//! What the definitions say, in the words of the subject.

ghost use Rattle.pricing.specs.Curves.{DemandFalls, SupplyRises, DemandIsFlat, SupplyIsFlat, RivalsAreBound};
ghost use Rattle.pricing.specs.Flat.{FlatRun, FlatNeighbours};
ghost use Rattle.pricing.specs.Ladder.{LadderStandsForAll, RungsAreTicks};
ghost use Rattle.pricing.specs.Pricing.{EachImbalance, PriceIsChosen, PriceIsOnly};
ghost use Rattle.pricing.specs.Walk.{DemandGoesOn, SupplyGoesOn};

/// Demand falls and supply rises with the price, weakly; neither changes between two prices that no
/// limit price tells apart; a rival moves at most the smaller of the two at its tick.
pub fn curves_stand()
    ensures falls { DemandFalls }
    ensures rises { SupplyRises }
    ensures demand_flat { DemandIsFlat }
    ensures supply_flat { SupplyIsFlat }
    ensures rivals { RivalsAreBound }
{}

/// At each tick of the rule demand and supply are what they are at some price on the ladder, and
/// each price on the ladder is a tick.
pub fn ladder_stands()
    ensures all { LadderStandsForAll }
    ensures ticks { RungsAreTicks }
{}

/// An imbalance has the sign and the size of demand less supply. The price that the pass finds is a
/// tick that passes steps 1 to 3, and no other tick passes them.
pub fn pricing_stands()
    ensures imbalance { EachImbalance }
    ensures chosen { PriceIsChosen }
    ensures only { PriceIsOnly }
{}

/// The ladder of a flat rule is the ticks from one to another, a step apart; below a tick stands the
/// one before it, and above it the one after.
pub fn flat_stands()
    ensures run { FlatRun }
    ensures neighbours { FlatNeighbours }
{}

/// One tick up, demand loses the buys at the tick that is left, and supply gains the offers at the
/// tick that is reached.
pub fn walk_stands()
    ensures demand { DemandGoesOn }
    ensures supply { SupplyGoesOn }
{}
