//! Laws of the definitions that the contracts cite. Each is a function without a result: what it ensures is a
//! theorem over the definitions alone.

ghost use Rattle.std.specs.Prelude.{◌≡◌};
ghost use Rattle.sqlite.specs.Effect.{Database};
ghost use Rattle.sqlite_trees.specs.Tree.{Trees};
ghost use Rattle.store_tables.specs.Uses.{as_store};
ghost use Rattle.repo_store.specs.Bounded.{HoldsStore};
ghost use Rattle.repo_store.specs.Complete.{AreAlike, IsComplete};
ghost use Rattle.store_faults.specs.declared.fault.StoreFault.{StoreFault};
ghost use Rattle.store_faults.specs.declared.fault.StoreFault.TheVariants.{Damaged, NotAStore};
ghost use Rattle.store_faults.specs.Faults.{IsRefusal};
ghost use Rattle.repo_store.specs.Kept.{Kept, nothing_kept};
ghost use Rattle.repo_store.specs.Rows.{tables_of};
ghost use Rattle.repo_store.specs.Shown.{Leaves};
ghost use Rattle.repo_store.specs.Unfit.{IsUnfit};
ghost use Rattle.repo_store.specs.UsesOf.{greatest_tick};
ghost use Rattle.repo_store.specs.RowRules.{AreStoreRows};

use crate::limits::GREATEST_TICK;

/// A database holds at most one complete repository. If its tables hold two, these have the same commits,
/// staged files and fixes. They also have the same cached answers in one order, with one limit, and the same
/// contents in some order. So trees that a crash leaves as a store with one of them (`trees`) are no store
/// with another.
pub fn a_database_holds_one_repository()
    ensures tables { (db : Database) (a b : Kept) → IsComplete a → IsComplete b → HoldsStore db a → HoldsStore db b
        → AreAlike a b }
    ensures trees { (trees : Trees) (a b : Kept) → Leaves a trees → Leaves b trees → AreAlike a b }
{}

/// What the calls and a crash leave is a store: trees that keep a repository are neither a damaged store nor
/// no store. So `open` refuses a database that holds a complete one (`tables`) only if memory or the database
/// refuses.
pub fn what_is_left_is_a_store()
    ensures tables { (db : Database) (kept : Kept) (fault : StoreFault) → HoldsStore db kept → IsComplete kept
        → AreStoreRows (tables_of kept) → IsUnfit db fault → IsRefusal ⊥ ⊥ ⊥ fault }
    ensures undamaged { (trees : Trees) (kept : Kept) → Leaves kept trees → ¬ IsUnfit (as_store trees) Damaged }
    ensures versioned { (trees : Trees) (kept : Kept) → Leaves kept trees → ¬ IsUnfit (as_store trees) NotAStore }
{}

/// Not all stores are alike: only the empty store is like the empty one.
pub fn only_the_empty_store_is_like_it()
    ensures { (kept : Kept) → AreAlike nothing_kept kept → kept ≡ nothing_kept }
{}

/// The greatest tick in the code is the one that the contracts name.
pub fn the_greatest_tick_is_that_of_the_contracts()
    ensures { GREATEST_TICK ≡ greatest_tick }
{}
