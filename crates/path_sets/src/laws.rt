//! Laws on diagrams.

ghost use Rattle.std.specs.Prelude.{◌≡◌, ◌<◌, ◌≤◌, ◌-◌, ◌^◌, ℕ, List};
ghost use Rattle.language.specs.Lists.{Member};
ghost use Rattle.path_sets.specs.declared.counting.bit_node.BitNode.{BitNode};
ghost use Rattle.path_sets.specs.Triples.{Triple, triple};
ghost use Rattle.path_sets.specs.Walks.{IsNumber};
ghost use Rattle.path_sets.specs.Diagrams.{accepts, AreOrdered, AreReduced, GoDown};
ghost use Rattle.path_sets.specs.Walks.{StandOnce};
ghost use Rattle.path_sets.specs.Suffixes.{HasNodes};

/// A law: the members at a point have one number of inner nodes, which depends on nothing else.
pub fn members_have_one_count()
    ensures { (width e p n m : ℕ) (members : List Triple)
        → HasNodes width (λ v. Member (triple e p v) members) n
        → HasNodes width (λ v. Member (triple e p v) members) m → n ≡ m }
{}

/// A law: in ordered and reduced diagrams in which no node occurs twice, equal sets have one number (Bryant 1986).
pub fn equal_sets_have_one_number()
    ensures { (nodes : List BitNode) (n m : ℕ) → GoDown nodes → AreOrdered nodes → AreReduced nodes
        → StandOnce nodes
        → IsNumber nodes n → IsNumber nodes m → ((v : ℕ) → accepts nodes n v ≡ accepts nodes m v)
        → n ≡ m }
{}

/// A law: the diagram of the least 2^k valuations of some bits is a chain of nodes for the bits from k on.
pub fn the_least_valuations_make_a_chain()
    ensures { (width k : ℕ) → k ≤ width → HasNodes width (λ v. v < 2 ^ k) (width - k) }
{}
