// Laws of orders.

ghost use Rattle.std.specs.Prelude.{ℕ, List};
ghost use Rattle.std.specs.Global.{Vec};
ghost use Rattle.cs_graph.specs.Graph.{AreWeighedOnce, HasCycle, IsOrder};

/// Where there is an order no node reaches itself.
pub fn ordered_without_cycle()
    ensures { (graph : List (Vec ℕ)) (order : List ℕ)
        → IsOrder graph order → HasCycle graph → ⊥ }
{}

/// The nodes of an order weigh together at most what all nodes weigh.
pub fn weighed_once()
    ensures { (graph : List (Vec ℕ)) → AreWeighedOnce graph }
{}
