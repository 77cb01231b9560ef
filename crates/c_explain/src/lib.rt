// The answer to why one router relies on another put into the variables that a C caller lends.

#![tactic(auto)]

ghost use Rattle.std.specs.Prelude.{◌≡◌};
ghost use Rattle.base.specs.Lent.{lent};
ghost use Rattle.route_explain_rules.specs.Values.{bare, values_of_rule, values_of};
ghost use Rattle.call_explain.specs.Explain.{explain_number};
ghost use Rattle.c_rules.specs.Exports.{ExplainExport};

use checker::explanation::{Explanation, Rule, Values};

// The values of an answer that carries no route.
fn bare(relies: bool, code: u8) -> Values
    ensures { result ≡ bare relies code }
{
    Values {
        relies,
        code,
        offer: 0,
        compared: false,
        own: 0,
        margin: 0,
    }
}

fn values_of_rule(rule: Rule) -> Values
    ensures { result ≡ values_of_rule rule }
{
    match rule {
        Rule::Parent => bare(true, 1),
        Rule::PeerClient => bare(true, 2),
        Rule::OwnBestClient => bare(true, 3),
        Rule::AnyOffer(offer) => Values {
            offer,
            ..bare(true, 4)
        },
        Rule::BetterOffer(offer, own, margin) => Values {
            offer,
            compared: true,
            own,
            margin,
            ..bare(true, 4)
        },
    }
}

fn values_of(answer: Explanation) -> Values
    ensures { result ≡ values_of answer }
{
    match answer {
        Explanation::Refused(_) => bare(false, 0),
        Explanation::Yes(rule) => values_of_rule(rule),
        Explanation::No(reason) => bare(false, reason as u8),
    }
}

// The refusal number of an answer, 0 for none.
fn number_of(answer: Explanation) -> u8
    ensures { result ≡ explain_number answer }
{
    match answer {
        Explanation::Refused(number) => number,
        Explanation::Yes(_) => 0,
        Explanation::No(_) => 0,
    }
}

// Returns the call's refusal number, and if that is not 0 writes nothing.
pub fn explain(
    plan: &[u8],
    list: usize,
    router: usize,
    other: usize,
    relies: &mut u8,
    code: &mut u8,
    offer: &mut u64,
    has_own: &mut u8,
    own: &mut u64,
    margin: &mut i64,
) -> u8
    ensures { ExplainExport plan.now list router other result
        (lent relies) (lent code) (lent offer) (lent has_own) (lent own) (lent margin) }
{
    let answer = checker::explain::explain(plan, list, router, other);
    let refused = number_of(answer);
    if refused != 0 {
        return refused;
    }
    let values = values_of(answer);
    *relies = values.relies as u8;
    *code = values.code;
    *offer = values.offer as u64;
    *has_own = values.compared as u8;
    *own = values.own as u64;
    let difference = values.margin;
    *margin = difference;
    0
}
