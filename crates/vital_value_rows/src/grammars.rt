//! Two small grammars: one that the next token decides, and one that it doesn't.

ghost use Rattle.std.specs.Prelude.{◌≡◌, IfOk};
ghost use Rattle.vital_ll.specs.Example.{example, undecided};

use super::laws::{example_has_one_reading, hidden_recursion_has_no_lead_ranks};
use super::words::{Said, line, word};
use std::alloc::{AllocError, Global};
use vital_ll::{
    Alternative, ParseError, Rule, RuleList, Rules, RulesError, Sym, Tree, masks_decide, parse,
    ranks_derive,
};

/// What a view says of a grammar and of a list of tokens, by their kinds.
pub fn say(alloc: Global, words: &[&str]) -> Said {
    example_has_one_reading();
    hidden_recursion_has_no_lead_ranks();
    match word(words, 1) {
        "example" => of_example(alloc, words),
        _ => of_undecided(alloc),
    }
}

/// The kinds that the words behind the second one write.
fn kinds_of(alloc: Global, words: &[&str]) -> Result<Vec<u16>, AllocError> {
    let mut kinds = Vec::new(alloc);
    for word in words.iter().skip(2) {
        if let Ok(kind) = word.parse::<u16>() {
            kinds.push(kind)?;
        }
    }
    Ok(kinds)
}

/// The steps of the tree of a list of tokens, each a rule and its alternative; or the first token that goes on no sentence.
fn of_example(alloc: Global, words: &[&str]) -> Said {
    let rules = example_rules(alloc)?;
    let kinds = kinds_of(alloc, words)?;
    if kinds.len() > 1000 {
        return Ok(None);
    }
    match parse(alloc, &rules, kinds.as_slice()) {
        Ok(tree) => steps_of(alloc, &tree),
        Err(ParseError::Refused { token }) => {
            let text = format!(in alloc; "refused {token}\n")?;
            Ok(Some(text))
        }
        Err(ParseError::NoMemory) => Err(AllocError),
    }
}

fn steps_of(alloc: Global, tree: &Tree) -> Said {
    let mut text = String::new(alloc);
    for step in tree.steps() {
        write!(
            text,
            "rule {} alternative {}\n",
            step.rule, step.alternative
        )?;
    }
    Ok(Some(text))
}

/// The first rule that the next token doesn't decide.
fn of_undecided(alloc: Global) -> Said {
    ranks_derive();
    let grammar = undecided(alloc)?;
    match Rules::make(alloc, grammar) {
        Ok(_) => line(alloc, "decided"),
        Err(RulesError::NoMemory) => Err(AllocError),
        Err(RulesError::NotPredictive { rule }) => {
            let text = format!(in alloc; "not decided {rule}\n")?;
            Ok(Some(text))
        }
    }
}

/// file = { line } ; line = name [ "=" name ] ";" with name, "=" and ";" as tokens 0, 1 and 2.
fn example(alloc: Global) -> Result<RuleList, AllocError>
    ensures { IfOk result (λ grammar. grammar ≡ example) }
{
    let lines = vec![in alloc; Sym::Rule(1), Sym::Rule(0)]?;
    let file = vec![in alloc;
        Alternative::from_vec(lines),
        Alternative::from_vec(Vec::new(alloc)),
    ]?;
    let parts = vec![in alloc; Sym::Token(0), Sym::Rule(2), Sym::Token(2)]?;
    let line = vec![in alloc; Alternative::from_vec(parts)]?;
    let value = vec![in alloc; Sym::Token(1), Sym::Token(0)]?;
    let option = vec![in alloc;
        Alternative::from_vec(value),
        Alternative::from_vec(Vec::new(alloc)),
    ]?;
    let rules = vec![in alloc;
        Rule::from_vec(file),
        Rule::from_vec(line),
        Rule::from_vec(option),
    ]?;
    Ok(RuleList::from_vec(rules))
}

/// The grammar is predictive by its masks, so there is no answer for the other case.
fn example_rules(alloc: Global) -> Result<Rules, AllocError>
    ensures { IfOk result (λ rules. rules ≡ example) }
{
    masks_decide();
    ranks_derive();
    let grammar = example(alloc)?;
    match Rules::make(alloc, grammar) {
        Ok(rules) => Ok(rules),
        Err(RulesError::NoMemory) => Err(AllocError),
        Err(RulesError::NotPredictive { .. }) => unreachable!(),
    }
}

/// text = [ name ] name tail ; tail = "=" | "=" name, where the next token decides neither rule 1 nor rule 2.
fn undecided(alloc: Global) -> Result<RuleList, AllocError>
    ensures { IfOk result (λ grammar. grammar ≡ undecided) }
{
    let text = vec![in alloc; Sym::Rule(1), Sym::Token(0), Sym::Rule(2)]?;
    let text = vec![in alloc; Alternative::from_vec(text)]?;
    let name = vec![in alloc; Sym::Token(0)]?;
    let option = vec![in alloc;
        Alternative::from_vec(name),
        Alternative::from_vec(Vec::new(alloc)),
    ]?;
    let short = vec![in alloc; Sym::Token(1)]?;
    let long = vec![in alloc; Sym::Token(1), Sym::Token(0)]?;
    let tail = vec![in alloc; Alternative::from_vec(short), Alternative::from_vec(long)]?;
    let rules = vec![in alloc;
        Rule::from_vec(text),
        Rule::from_vec(option),
        Rule::from_vec(tail),
    ]?;
    Ok(RuleList::from_vec(rules))
}
