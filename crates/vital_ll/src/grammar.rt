ghost use Rattle.std.specs.Prelude.{◌≡◌, ◌<◌, [], Some, IsSome, length, slice_get, slice_index_or};
ghost use Rattle.vital_ll.specs.Grammar.{alternative_of};

use std::marker::Model;

/// A symbol of an alternative. Kinds and rules are numbered from 0.
#[derive(Clone, Copy, PartialEq, Eq)]
pub enum Sym {
    /// A token of this kind.
    Token(u16),
    /// What the rule of this number derives.
    Rule(u16),
}

/// One alternative of a rule: its symbols, in order. Contracts see the list.
#[derive(Drop)]
pub struct Alternative {
    symbols: Vec<Sym>,
}

/// A rule: its alternatives, in order. Contracts see the list of their lists.
#[derive(Drop)]
pub struct Rule {
    alternatives: Vec<Alternative>,
}

/// A grammar: its rules, in order, of which the first derives the sentences. Contracts see the list.
#[derive(Drop)]
pub struct RuleList {
    rules: Vec<Rule>,
}

impl Model for Alternative {
    ghost use Rattle.std.specs.Prelude.{List};
    ghost use Rattle.vital_ll.specs.declared.grammar.Sym.{Sym};

    ghost Value = { List Sym };

    ghost view = { λ a. a.symbols.items };
}

impl Model for Rule {
    ghost use Rattle.std.specs.Prelude.{List};
    ghost use Rattle.vital_ll.specs.declared.grammar.Sym.{Sym};

    ghost Value = { List (List Sym) };

    ghost view = { λ r. r.alternatives.items };
}

impl Model for RuleList {
    ghost use Rattle.std.specs.Prelude.{List};
    ghost use Rattle.vital_ll.specs.declared.grammar.Sym.{Sym};

    ghost Value = { List (List (List Sym)) };

    ghost view = { λ l. l.rules.items };
}

impl Alternative {
    /// The alternative of these symbols. Takes no memory.
    pub fn from_vec(symbols: Vec<Sym>) -> Self
        ensures { result ≡ symbols.items }
    {
        Alternative { symbols }
    }

    /// Its symbols. Takes no memory.
    pub fn into_vec(self) -> Vec<Sym>
        ensures { result.items ≡ self }
    {
        self.symbols
    }
}

impl Alternative {
    fn symbols(&self) -> &[Sym]
        ensures { result.now ≡ self.now }
    {
        self.symbols.as_slice()
    }
}

impl Rule {
    /// The rule of these alternatives. Takes no memory.
    pub fn from_vec(alternatives: Vec<Alternative>) -> Self
        ensures { result ≡ alternatives.items }
    {
        Rule { alternatives }
    }

    /// Its alternatives. Takes no memory.
    pub fn into_vec(self) -> Vec<Alternative>
        ensures { result.items ≡ self }
    {
        self.alternatives
    }
}

impl Rule {
    fn len(&self) -> usize
        ensures { result ≡ length self.now }
    {
        self.alternatives.len()
    }

    fn symbols(&self, alternative: u16) -> &[Sym]
        requires { IsSome (slice_get self.now alternative) }
        ensures { slice_get self.now alternative ≡ Some result.now }
    {
        self.alternatives[usize::from(alternative)].symbols()
    }
}

impl RuleList {
    /// The grammar of these rules. Takes no memory.
    pub fn from_vec(rules: Vec<Rule>) -> Self
        ensures { result ≡ rules.items }
    {
        RuleList { rules }
    }

    /// Its rules. Takes no memory.
    pub fn into_vec(self) -> Vec<Rule>
        ensures { result.items ≡ self }
    {
        self.rules
    }

    /// How many rules there are.
    pub(crate) fn len(&self) -> usize
        ensures { result ≡ length self.now }
    {
        self.rules.len()
    }

    /// How many alternatives a rule has.
    pub(crate) fn alternative_count(&self, rule: usize) -> usize
        requires { rule < length self.now }
        ensures { result ≡ length (slice_index_or self.now rule []) }
    {
        self.rules[rule].len()
    }

    /// The symbols of an alternative that is there.
    pub(crate) fn symbols(&self, rule: u16, alternative: u16) -> &[Sym]
        requires { IsSome (alternative_of self.now rule alternative) }
        ensures { alternative_of self.now rule alternative ≡ Some result.now }
    {
        self.rules[usize::from(rule)].symbols(alternative)
    }
}
