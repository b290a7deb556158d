//! What an answer tells, in the words of who made the access. Each function does nothing; its contract
//! is the law.
ghost use Rattle.std.specs.Prelude.{◌≡◌, ◌≢◌, ℕ, ◌<◌, AllPairs, IsTrue, false};
ghost use Rattle.jh_cellcfg.specs.declared.region.Region.{Region as TheRegion};
ghost use Rattle.jh_cellcfg.specs.Regions.{has_address, SharesNoAddress};
ghost use Rattle.jh_mmio.specs.declared.hitting.Hitting.TheVariants.{Subpage as TheSubpage, Nothing as NoAnswer};
ghost use Rattle.jh_mmio.specs.Lookups.{HasFirstByte, IsAmongApart, IsLetThrough, IsPartlyClosed, Lookup, TakesAccess, hitting_of_lookup, lets_lookup_through};
ghost use Rattle.jh_num.specs.Numbers.{item_number};

/// The region that answers is a subpage region that has the whole access, none of its bytes at a closed place, and lets it
/// through; and where no two regions share an address, one that has the first byte has the number that is answered.
pub fn the_region_that_answers_is_the_only_one()
    ensures it { (l : Lookup) (number : ℕ) → hitting_of_lookup l ≡ TheSubpage number
        → (k : ℕ) × (number ≡ item_number k) × IsLetThrough l k }
    ensures only { (l : Lookup) (number : ℕ) → IsAmongApart l → hitting_of_lookup l ≡ TheSubpage number
        → (k : ℕ) (r : TheRegion) → HasFirstByte l k r → number ≡ item_number k }
{}

/// Where no two regions share an address, a subpage region that has the whole access, none of its bytes at a closed
/// place, and doesn't let it through ends the search: no window answers in its place.
pub fn a_region_that_refuses_ends_the_search()
    ensures { (l : Lookup) (k : ℕ) (r : TheRegion) → IsAmongApart l → TakesAccess l k r → lets_lookup_through l r ≡ false
        → hitting_of_lookup l ≡ NoAnswer }
{}

/// A region of which a byte of the access is at a closed place doesn't answer it, whatever the other
/// regions are; where the answer tells the last number, which many share, it is another region's. Where
/// no two regions share an address and this one has the first byte, no subpage region answers at all.
pub fn a_closed_byte_is_no_subpage_access()
    ensures own { (l : Lookup) (k : ℕ) (r : TheRegion) → IsPartlyClosed l k r → k < 0xffffffff → hitting_of_lookup l ≡ TheSubpage k → ⊥ }
    ensures another { (l : Lookup) (k : ℕ) (r : TheRegion) → IsPartlyClosed l k r → (number : ℕ) → hitting_of_lookup l ≡ TheSubpage number
        → (j : ℕ) × (j ≢ k) × (number ≡ item_number j) × IsLetThrough l j }
    ensures none { (l : Lookup) (k : ℕ) (r : TheRegion) → AllPairs SharesNoAddress l.regions → IsPartlyClosed l k r
        → IsTrue (has_address r l.at) → (number : ℕ) → hitting_of_lookup l ≡ TheSubpage number → ⊥ }
{}
