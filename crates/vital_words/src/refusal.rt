//! How the words after a command are refused.

ghost use Rattle.std.specs.Prelude.{◌≡◌, ◌+◌, ◌^◌, ◌<◌, [], length, Option};
ghost use Rattle.std.specs.List.{list_all};
ghost use Rattle.vital_words.specs.Refusals.{refusal, refusal_of, first_refusal, first_fault, is_met};
ghost use Rattle.vital_words.specs.declared.refusal.UsageWhy.{UsageWhy as UsageWhy'};

use crate::command::KeyRule;
use vital_base::Word;

/// Why a word is refused.
#[derive(Clone, Copy, Debug, PartialEq, Eq)]
pub enum UsageWhy {
    /// The first word is no command, or there is no word.
    Command,
    /// The word has no `=`, or its key is none of the command.
    Key,
    /// The key has come as often as it may.
    Twice,
    /// The value is not what the key takes.
    Value,
    /// A key that the command asks for has not come.
    Missing,
}

/// The first word that is refused, counted from 1, and why. A key that is missing is missing after the last word.
#[derive(Clone, Copy, PartialEq, Eq)]
pub struct UsageFault {
    pub word: u64,
    pub why: UsageWhy,
}

/// The first fault of the words after a command that takes its keys so.
pub fn first_fault(rules: &[KeyRule], words: &[Word]) -> Option<UsageFault>
    ensures { result ≡ first_fault rules.now words.now }
{
    if let Some(fault) = first_refusal(rules, words) {
        return Some(fault);
    }
    if all_met(rules, words) {
        None
    } else {
        Some(missing(words.len()))
    }
}

/// The fault that a key is missing after so many words after the command.
pub fn missing(count: usize) -> UsageFault
    requires { count < 2 ^ 63 }
    ensures { result ≡ record { word = count + 2; why = UsageWhy.Missing } }
{
    UsageFault {
        word: count as u64 + 2,
        why: UsageWhy::Missing,
    }
}

/// Has each key come that must?
fn all_met(rules: &[KeyRule], words: &[Word]) -> bool
    ensures { result ≡ list_all (is_met words.now) rules.now }
{
    for rule in rules {
        if !is_met(words, *rule) {
            return false;
        }
    }
    true
}

/// Has the key come, if it must?
fn is_met(words: &[Word], rule: KeyRule) -> bool
    ensures { result ≡ is_met words.now rule }
{
    !rule.is_required || rule.key.count(words) > 0
}

/// The first word after the command that is refused.
fn first_refusal(rules: &[KeyRule], words: &[Word]) -> Option<UsageFault>
    ensures { result ≡ first_refusal rules.now [] 2 words.now }
{
    for (i, word) in words.iter().enumerate() {
        if let Some(why) = refusal(rules, &words[..i], word.as_slice()) {
            return Some(UsageFault {
                word: i as u64 + 2,
                why,
            });
        }
    }
    None
}

/// Why a word is refused after the earlier ones, where it is. The earlier words are counted each time: none of them was
/// refused, so there are no more of them than all keys together may come.
fn refusal(rules: &[KeyRule], earlier: &[Word], word: &[u8]) -> Option<UsageWhy>
    ensures { result ≡ refusal rules.now earlier.now word.now }
{
    for rule in rules {
        if let Some(value) = rule.key.value_in(word) {
            return refusal_of(*rule, earlier, value);
        }
    }
    Some(UsageWhy::Key)
}

/// Why a word that gives this value to a key is refused after the earlier ones, where it is.
fn refusal_of(rule: KeyRule, earlier: &[Word], value: &[u8]) -> Option<UsageWhy>
    ensures { (others : Option UsageWhy') → result ≡ refusal_of rule earlier.now (Some value.now) others }
{
    if rule.most <= rule.key.count(earlier) {
        Some(UsageWhy::Twice)
    } else if rule.key.takes(value) {
        None
    } else {
        Some(UsageWhy::Value)
    }
}
