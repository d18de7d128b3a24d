// Each kind of answer put into its struct, case by case.
#![tactic(auto, unfolding(crate::specs::Answers::chosen_for_c, crate::specs::Answers::rule_for_c, crate::specs::Answers::regular_for_c, crate::specs::Answers::consensus_for_c, crate::specs::Answers::text_for_c, crate::specs::Answers::mask_for_c))]

ghost use Rattle.std.specs.Prelude.{◌≡◌, [], ◌∷◌, ◌++◌};
ghost use Rattle.scalars.specs.Paper.{refusal, refused, unused, answer_paper, verdict_paper};
ghost use Rattle.types.specs.TypePaper.{consensus_paper};
ghost use Rattle.rules.specs.RulePaper.{rule_paper, rule_values};
ghost use Rattle.regular.specs.SetPaper.{regular_paper, regular_values};
ghost use Rattle.lists.specs.ChosenPaper.{chosen_paper, no_choice};
ghost use Rattle.calls.specs.CallPaper.{call_paper};
ghost use Rattle.c_answers.specs.Answers.{chosen_for_c, rule_for_c, regular_for_c, consensus_for_c, text_for_c, mask_for_c};

use crate::answers::{
    BY_BASE, BY_COMPONENT, ChosenForC, ConsensusForC, MaskForC, NO_VALUE, RegularForC, RuleForC,
    TextForC,
};
use calls::Called;
use lists::Chosen;
use regular::Regular;
use rules::Rule;
use scalars::{Refusal, UNUSED};
use types::{Consensus, Operand};

// The answer where a rule is chosen by itself, without operands and so without a mark.
impl From<Result<Chosen, Refusal>> for ChosenForC {
    ghost from_gives = { λ answer c. c ≡ chosen_for_c (chosen_paper answer) };

    fn from(answer: Result<Chosen, Refusal>) -> ChosenForC {
        match answer {
            Err(why) => not_chosen(why),
            Ok(choice) => chosen(0, choice.index, choice.rule, UNUSED, 0),
        }
    }
}

// The answer where a call chooses a rule, with the mark of its result.
impl From<Result<Called, Refusal>> for ChosenForC {
    ghost from_gives = { λ answer c. c ≡ chosen_for_c (call_paper answer) };

    fn from(answer: Result<Called, Refusal>) -> ChosenForC {
        match answer {
            Err(why) => not_chosen(why),
            Ok(called) => {
                let choice = called.chosen;
                let result = Operand {
                    code: choice.rule.result,
                    measured: called.measured,
                };
                chosen(0, choice.index, choice.rule, result.mark(), 0)
            }
        }
    }
}

// Number and place are parameters below, since both are 0 where a question is accepted.
//
// The answer where no rule is chosen.
fn not_chosen(why: Refusal) -> ChosenForC
    ensures { result ≡ chosen_for_c (refused why no_choice) }
{
    chosen(why.number(), UNUSED, Rule::BLANK, UNUSED, why.place())
}

fn chosen(number: u8, index: u8, rule: Rule, mark: u8, place: usize) -> ChosenForC
    ensures { result ≡ chosen_for_c (refusal number place ((index ∷ rule_values rule) ++ (mark ∷ []))) }
{
    ChosenForC {
        number,
        index,
        a0: rule.a0,
        a1: rule.a1,
        a2: rule.a2,
        a3: rule.a3,
        count: rule.count,
        result: rule.result,
        mark,
        place,
    }
}

// The answer where a rule is asked for.
impl From<Result<Rule, Refusal>> for RuleForC {
    ghost from_gives = { λ answer c. c ≡ rule_for_c (rule_paper answer) };

    fn from(answer: Result<Rule, Refusal>) -> RuleForC {
        match answer {
            Err(why) => ruled(why.number(), Rule::BLANK, why.place()),
            Ok(rule) => ruled(0, rule, 0),
        }
    }
}

fn ruled(number: u8, listed: Rule, place: usize) -> RuleForC
    ensures { result ≡ rule_for_c (refusal number place (rule_values listed)) }
{
    RuleForC {
        number,
        a0: listed.a0,
        a1: listed.a1,
        a2: listed.a2,
        a3: listed.a3,
        count: listed.count,
        result: listed.result,
        place,
    }
}

// The answer where a Regular set is asked for.
impl From<Result<Regular, Refusal>> for RegularForC {
    ghost from_gives = { λ answer c. c ≡ regular_for_c (regular_paper answer) };

    fn from(answer: Result<Regular, Refusal>) -> RegularForC {
        match answer {
            Err(why) => parts(why.number(), Regular::EMPTY, why.place()),
            Ok(set) => parts(0, set, 0),
        }
    }
}

fn parts(number: u8, set: Regular, place: usize) -> RegularForC
    ensures { result ≡ regular_for_c (refusal number place (regular_values set)) }
{
    RegularForC {
        number,
        arity: set.arity,
        constructors: set.constructors.0,
        scalars: set.scalars.0,
        conclusion: u8::from(set.conclude),
        place,
    }
}

// The answer where a consensus is asked for.
impl From<Result<Consensus, Refusal>> for ConsensusForC {
    ghost from_gives = { λ answer c. c ≡ consensus_for_c (consensus_paper answer) };

    fn from(answer: Result<Consensus, Refusal>) -> ConsensusForC {
        match answer {
            Err(why) => ConsensusForC {
                number: why.number(),
                scalar: UNUSED,
                giver: UNUSED,
                component: NO_VALUE,
                place: why.place(),
            },
            Ok(
                Consensus {
                    scalar,
                    component: None,
                },
            ) => ConsensusForC {
                number: 0,
                scalar: scalar.0,
                giver: BY_BASE,
                component: NO_VALUE,
                place: 0,
            },
            Ok(
                Consensus {
                    scalar,
                    component: Some(k),
                },
            ) => ConsensusForC {
                number: 0,
                scalar: scalar.0,
                giver: BY_COMPONENT,
                component: k,
                place: 0,
            },
        }
    }
}

// The answer where bytes are put into lent ones: how many they are.
impl From<Result<usize, Refusal>> for TextForC {
    ghost from_gives = { λ answer c. c ≡ text_for_c (answer_paper (λ n. n ∷ []) (unused ∷ []) answer) };

    fn from(answer: Result<usize, Refusal>) -> TextForC {
        match answer {
            Err(why) => TextForC {
                number: why.number(),
                length: NO_VALUE,
                place: why.place(),
            },
            Ok(length) => TextForC {
                number: 0,
                length,
                place: 0,
            },
        }
    }
}

// The answer where the value, if any, stands in lent bytes.
impl From<Result<(), Refusal>> for MaskForC {
    ghost from_gives = { λ answer c. c ≡ mask_for_c (verdict_paper answer) };

    fn from(answer: Result<(), Refusal>) -> MaskForC {
        match answer {
            Err(why) => MaskForC {
                number: why.number(),
                place: why.place(),
            },
            Ok(()) => MaskForC {
                number: 0,
                place: 0,
            },
        }
    }
}
