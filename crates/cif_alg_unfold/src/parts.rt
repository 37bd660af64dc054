//! The parts of a net in which each algebraic variable is replaced.

ghost use Rattle.std.specs.Prelude.{◌≡◌, [], ◌∷◌, ◌++◌, map, IfOk, OnOk};
ghost use Rattle.cif_net.specs.View.{alg_tree, auto_tree, edge_tree, exclusion_tree, invariant_tree, value_of};
ghost use Rattle.cif_net_expr.specs.View.{view};
ghost use Rattle.cif_net_model.specs.Inline.{alg_replaced, auto_replaced, edge_replaced, replaced};
ghost use Rattle.cif_alg_unfold.specs.Parts.{exclusion_replaced, invariant_replaced, value_replaced};
ghost use Rattle.cif_alg_unfold.specs.Tables.{by_table};

use crate::replacing::Replacing;
use cif_base::{Boxed, Items, Memory};
use cif_net::{Alg, AlgValue, Auto, Exclusion, Invariant, NetEdge};
use cif_net_expr::NetExpr;

impl<'m> Replacing<'m> {
    /// The values of an algebraic variable in the locations of an automaton.
    pub fn values(&self, all: &[NetExpr]) -> Result<Items<NetExpr>, Memory>
        ensures { IfOk result (λ x. map view x ≡ map (replaced (by_table self.now.by.now)) (map view all.now)) }
    {
        let made = self.exprs(all)?;
        Ok(made)
    }

    /// Adds an edge. What is made stands in boxes until it is put into its place.
    fn add_edge(&self, edge: &NetEdge, all: &mut Items<NetEdge>) -> Result<(), Memory>
        ensures { OnOk result (map edge_tree all.new ≡ map edge_tree all.old ++ edge_replaced (by_table self.now.by.now) (edge_tree edge.now) ∷ []) }
    {
        let guard = self.expr(&edge.guard)?;
        let updates = self.updates(edge.updates.as_slice())?;
        let places = edge.places.copy(self.alloc)?;
        match &edge.sent {
            Some(value) => {
                let sent = self.expr(value)?;
                all.push(NetEdge {
                    event: edge.event,
                    role: edge.role,
                    from: edge.from,
                    to: edge.to,
                    guard: guard.into_inner(),
                    sent: Some(sent.into_inner()),
                    updates,
                    places,
                })
            }
            None => all.push(NetEdge {
                event: edge.event,
                role: edge.role,
                from: edge.from,
                to: edge.to,
                guard: guard.into_inner(),
                sent: None,
                updates,
                places,
            }),
        }
    }

    fn edges(&self, edges: &[NetEdge]) -> Result<Items<NetEdge>, Memory>
        ensures { IfOk result (λ all. map edge_tree all ≡ map (edge_replaced (by_table self.now.by.now)) (map edge_tree edges.now)) }
    {
        let mut all = Items::new(self.alloc);
        for edge in edges {
            self.add_edge(edge, &mut all)?;
        }
        Ok(all)
    }

    fn add_auto(&self, auto: Auto, all: &mut Items<Auto>) -> Result<(), Memory>
        ensures { OnOk result (map auto_tree all.new ≡ map auto_tree all.old ++ auto_replaced (by_table self.now.by.now) (auto_tree auto) ∷ []) }
    {
        let Auto {
            path,
            locs,
            first,
            alphabet,
            monitors,
            edges,
        } = auto;
        let edges = self.edges(edges.as_slice())?;
        all.push(Auto {
            path,
            locs,
            first,
            alphabet,
            monitors,
            edges,
        })
    }

    pub fn autos(&self, autos: Items<Auto>) -> Result<Items<Auto>, Memory>
        ensures { IfOk result (λ all. map auto_tree all ≡ map (auto_replaced (by_table self.now.by.now)) (map auto_tree autos)) }
    {
        let mut all = Items::new(self.alloc);
        for auto in autos.into_vec() {
            self.add_auto(auto, &mut all)?;
        }
        Ok(all)
    }

    fn value(&self, value: &AlgValue) -> Result<Boxed<AlgValue>, Memory>
        ensures { IfOk result (λ x. value_of x ≡ value_replaced (by_table self.now.by.now) (value_of value.now)) }
    {
        match value {
            AlgValue::One(value) => {
                let value = self.expr(value)?;
                Boxed::new(self.alloc, AlgValue::One(value.into_inner()))
            }
            AlgValue::ByLoc { auto, values } => {
                let auto = *auto;
                let values = self.values(values.as_slice())?;
                Boxed::new(self.alloc, AlgValue::ByLoc { auto, values })
            }
        }
    }

    fn add_alg(&self, alg: Alg, all: &mut Items<Alg>) -> Result<(), Memory>
        ensures { OnOk result (map alg_tree all.new ≡ map alg_tree all.old ++ alg_replaced (by_table self.now.by.now) (alg_tree alg) ∷ []) }
    {
        let value = self.value(&alg.value)?;
        all.push(Alg {
            value: value.into_inner(),
            ..alg
        })
    }

    pub fn algs(&self, algs: Items<Alg>) -> Result<Items<Alg>, Memory>
        ensures { IfOk result (λ all. map alg_tree all ≡ map (alg_replaced (by_table self.now.by.now)) (map alg_tree algs)) }
    {
        let mut all = Items::new(self.alloc);
        for alg in algs.into_vec() {
            self.add_alg(alg, &mut all)?;
        }
        Ok(all)
    }

    pub fn exclusions(&self, exclusions: &[Exclusion]) -> Result<Items<Exclusion>, Memory>
        ensures { IfOk result (λ all. map exclusion_tree all ≡ map (exclusion_replaced (by_table self.now.by.now)) (map exclusion_tree exclusions.now)) }
    {
        let mut all = Items::new(self.alloc);
        for exclusion in exclusions {
            let pred = self.expr(&exclusion.pred)?;
            all.push(Exclusion {
                event: exclusion.event,
                pred: pred.into_inner(),
                allows: exclusion.allows,
            })?;
        }
        Ok(all)
    }

    pub fn invariants(&self, invariants: &[Invariant]) -> Result<Items<Invariant>, Memory>
        ensures { IfOk result (λ all. map invariant_tree all ≡ map (invariant_replaced (by_table self.now.by.now)) (map invariant_tree invariants.now)) }
    {
        let mut all = Items::new(self.alloc);
        for invariant in invariants {
            let pred = self.expr(&invariant.pred)?;
            all.push(Invariant {
                pred: pred.into_inner(),
                at: invariant.at,
            })?;
        }
        Ok(all)
    }
}
