//! What is counted for one event, automaton by automaton.

ghost use Rattle.std.specs.Prelude.{◌≡◌};
ghost use Rattle.cif_system.specs.System.{syncing};
ghost use Rattle.cif_net.specs.View.{role_of};
ghost use Rattle.cif_alg.specs.Tallies.{met_with, opened, with_edge, with_stay, all_options, closed, with_besides, tally_nodes};

use crate::limit::sum;
use crate::weighed::Weighed;
use cif_net::NetRole;

/// What the automata so far may do that synchronise on the event, and whether there is one. While one is gone through, `options`
/// are its options. `sends` and `receives` are the edges of all automata that send and that receive. Each choice has the nodes
/// `besides`, those of all state invariants and of the exclusions of the event.
#[derive(Clone, Copy)]
pub struct Tally {
    pub choices: Weighed,
    pub has_party: bool,
    pub options: Option<Options>,
    pub sends: Weighed,
    pub receives: Weighed,
    pub besides: u64,
}

/// What an automaton may do for the event: to take one of these edges, or to stay.
#[derive(Clone, Copy)]
pub struct Options {
    pub edges: Weighed,
    pub stays: bool,
}

impl Options {
    /// To stay has one node, that of the party.
    fn all(self) -> Weighed
        ensures { result ≡ all_options self }
    {
        if self.stays {
            self.edges.with_one(1)
        } else {
            self.edges
        }
    }
}

impl Tally {
    /// No automaton has been met. Each choice has so many nodes besides.
    pub fn new(besides: u64) -> Tally
        ensures { result ≡ met_with besides }
    {
        Tally {
            choices: Weighed { count: 1, nodes: 0 },
            has_party: false,
            options: None,
            sends: Weighed::none(),
            receives: Weighed::none(),
            besides,
        }
    }

    /// An automaton that has the event begins.
    pub fn opened(self) -> Tally
        ensures { result ≡ opened self }
    {
        Tally {
            options: Some(Options {
                edges: Weighed::none(),
                stays: false,
            }),
            ..self
        }
    }

    /// The automaton has an edge for the event in that role, with so many nodes.
    pub fn with_edge(self, role: NetRole, nodes: u64) -> Tally
        ensures { result ≡ with_edge (role_of role) nodes self }
    {
        match role {
            NetRole::Sync => self.with_option(nodes),
            NetRole::Send => Tally {
                sends: self.sends.with_one(nodes),
                ..self
            },
            NetRole::Recv => Tally {
                receives: self.receives.with_one(nodes),
                ..self
            },
        }
    }

    /// The automaton may take an edge that synchronises, with so many nodes.
    fn with_option(self, nodes: u64) -> Tally
        ensures { result ≡ with_edge syncing nodes self }
    {
        match self.options {
            None => self,
            Some(options) => Tally {
                options: Some(Options {
                    edges: options.edges.with_one(nodes),
                    stays: options.stays,
                }),
                ..self
            },
        }
    }

    /// The automaton monitors the event.
    pub fn with_stay(self) -> Tally
        ensures { result ≡ with_stay self }
    {
        match self.options {
            None => self,
            Some(options) => Tally {
                options: Some(Options {
                    edges: options.edges,
                    stays: true,
                }),
                ..self
            },
        }
    }

    /// The automaton ends: each choice goes on with each of its options.
    pub fn closed(self) -> Tally
        ensures { result ≡ closed self }
    {
        match self.options {
            None => self,
            Some(options) => Tally {
                choices: self.choices.paired(options.all()),
                has_party: true,
                options: None,
                ..self
            },
        }
    }

    /// The event has an exclusion, with so many nodes.
    pub fn with_besides(self, nodes: u64) -> Tally
        ensures { result ≡ with_besides nodes self }
    {
        Tally {
            besides: sum(self.besides, nodes),
            ..self
        }
    }

    /// The nodes of the choices for the event, each with one of its own. For a channel each edge that sends goes with each that
    /// receives, and with what the others may do. For another event there is no choice without a party.
    pub fn nodes(self, is_channel: bool) -> u64
        ensures { result ≡ tally_nodes is_channel self }
    {
        let each = sum(1, self.besides);
        if is_channel {
            let others = self.receives.paired(self.choices);
            self.sends.paired(others).all_nodes(each)
        } else if self.has_party {
            self.choices.all_nodes(each)
        } else {
            0
        }
    }
}
