// The limits of a List, made from document 01. A record is the number of the answer, and the rules that the List is made of.

use crate::answers::is_refusal;
use crate::hand_made::list_in;
use crate::set_answers::listing_agrees;
use c_sets::RULE_BYTES;
use lists::AnyOverloadSet;

// Whether the rules are refused as stored, or taken, and listed as they stand there.
pub fn agrees(record: &[u8]) -> bool {
    let [number, rules @ ..] = record else {
        return false;
    };
    if rules.len() % RULE_BYTES != 0 {
        return false;
    }
    match list_in(rules) {
        Err(why) => is_refusal(why, *number, 0),
        Ok(list) => listing_agrees(AnyOverloadSet::List(list), record),
    }
}
