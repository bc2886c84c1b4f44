ghost use Rattle.std.specs.Prelude.{◌≡◌, ◌<◌, ◌≤◌, ◌↔◌, ◌∷◌, Some, IfSome, ℤ};
ghost use Rattle.std.specs.Prelude.{neg_ℤ, length, option_map};
ghost use Rattle.wc_eval.specs.Sums.{whole, IsWorth};
ghost use Rattle.wc_eval.specs.Answers.{calc_of, negation_of};
ghost use Rattle.wc_eval.specs.Fronts.{SumGoesOn, ProductGoesOn, NumberGoesOn, PlainGoesOn};
ghost use Rattle.wc_eval.specs.Fronts.{EnclosedGoesOn, EndsSum, EndsProduct};
ghost use Rattle.wc_eval.specs.Fronts.{negations_in, past_negations, digits_in, past_digits};
ghost use Rattle.wc_eval.specs.Fronts.{literal_front, IsFront};
ghost use Rattle.wc_eval.specs.Signs.{after_byte};
ghost use Rattle.wc_eval.specs.Texts.{past_margin};

use crate::blanks::{is_blank, past_margin};
use crate::operator::{cut_product_sign, cut_sum_sign};
use wc_text::read_i64;

/// The most parentheses that may be open at one place.
const MOST_OPEN: u32 = 32;

/// A number, and what comes after its text.
type Front<'a> = (i64, &'a [u8]);

/// The value of an expression of whole numbers: `+`, `-`, `*`, `//`, `%`, unary `-` and
/// parentheses, with the usual ranks, blanks allowed.
///
/// None exactly where the text is no such expression, a divisor is zero, a number does not fit 64
/// bits at some step, or more than 32 parentheses are open at one place. It takes no memory.
pub fn calc(text: &[u8]) -> Option<i64>
    ensures exact { (value : ℤ) → (result ≡ Some value) ↔ IsWorth text.now value }
    ensures computed { result ≡ calc_of text.now }
{
    let (value, rest) = read_sum(text, MOST_OPEN)?;
    if !rest.is_empty() {
        return None;
    }
    Some(value)
}

/// The sum at the front of a text. What comes after it begins with none of its signs.
#[cycle(calc)]
fn read_sum(text: &[u8], depth: u32) -> Option<Front<'_>>
    ensures value { SumGoesOn depth text.now result }
    ensures front { IfSome result (λ read. IsFront depth 0 text.now read.0 read.1.now) }
    ensures ended { IfSome result (λ front. EndsSum front.1.now) }
    ensures shorter { IfSome result (λ front. length front.1.now ≤ length text.now) }
{
    let (mut value, mut rest) = read_product(text, depth)?;
    'terms: while let Some((operator, following)) = cut_sum_sign(rest) {
        let (right, after) = read_product(following, depth)?;
        value = operator.result(value, right)?;
        rest = after;
    }
    Some((value, rest))
}

/// The product at the front of a text.
#[cycle(calc)]
fn read_product(text: &[u8], depth: u32) -> Option<Front<'_>>
    ensures value { ProductGoesOn depth text.now result }
    ensures front { IfSome result (λ read. IsFront depth 1 text.now read.0 read.1.now) }
    ensures ended { IfSome result (λ front. EndsProduct front.1.now) }
    ensures shorter { IfSome result (λ front. length front.1.now ≤ length text.now) }
{
    let (mut value, mut rest) = read_number(text, depth)?;
    'factors: while let Some((operator, following)) = cut_product_sign(rest) {
        let (right, after) = read_number(following, depth)?;
        value = operator.result(value, right)?;
        rest = after;
    }
    Some((value, rest))
}

/// The number at the front of a text, with each `-` before it, and without the blanks after it.
#[cycle(calc)]
fn read_number(text: &[u8], depth: u32) -> Option<Front<'_>>
    ensures value { NumberGoesOn depth text.now result }
    ensures front { IfSome result (λ read. IsFront depth 2 text.now read.0 read.1.now) }
    ensures ended { IfSome result (λ front. past_margin front.1.now ≡ front.1.now) }
    ensures shorter { IfSome result (λ front. length front.1.now ≤ length text.now) }
{
    let (negations, body) = cut_negations(text);
    let (value, rest) = read_plain(body, depth)?;
    Some((negation_of(value, negations)?, past_margin(rest)))
}

/// The number at the front of a text that begins with no blank and no `-`: digits, or a sum in
/// parentheses.
#[cycle(calc)]
fn read_plain(text: &[u8], depth: u32) -> Option<Front<'_>>
    ensures value { PlainGoesOn depth text.now result }
    ensures front { IfSome result (λ read. IsFront depth 2 text.now read.0 read.1.now) }
    ensures shorter { IfSome result (λ front. length front.1.now ≤ length text.now) }
{
    match cut_opening(text) {
        Some(inside) => read_enclosed(inside, depth),
        None => read_literal(text),
    }
}

/// The value of a sum up to the parenthesis that closes it, after the one that opens it.
#[cycle(calc)]
fn read_enclosed(text: &[u8], depth: u32) -> Option<Front<'_>>
    ensures value { EnclosedGoesOn depth text.now result }
    ensures front { IfSome result (λ read. IsFront depth 2 (40 ∷ text.now) read.0 read.1.now) }
    ensures shorter { IfSome result (λ front. length front.1.now < length text.now) }
{
    if depth == 0 {
        return None;
    }
    let (value, rest) = read_sum(text, depth - 1)?;
    Some((value, cut_closing(rest)?))
}

/// What comes after a `(` at the front of a text.
fn cut_opening(text: &[u8]) -> Option<&[u8]>
    ensures found { option_map (λ rest. rest.now) result ≡ after_byte 40 text.now }
    ensures shorter { IfSome result (λ rest. length rest.now < length text.now) }
{
    match text {
        [b'(', rest @ ..] => Some(rest),
        _ => None,
    }
}

/// What comes after a `)` at the front of a text.
fn cut_closing(text: &[u8]) -> Option<&[u8]>
    ensures found { option_map (λ rest. rest.now) result ≡ after_byte 41 text.now }
    ensures shorter { IfSome result (λ rest. length rest.now < length text.now) }
{
    match text {
        [b')', rest @ ..] => Some(rest),
        _ => None,
    }
}

/// How many `-` are at the front of a text, among blanks, and what comes after them.
fn cut_negations(text: &[u8]) -> (usize, &[u8])
    ensures count { result.0 ≡ negations_in text.now }
    ensures rest { result.1.now ≡ past_negations text.now }
    ensures shorter { length result.1.now ≤ length text.now }
{
    let mut count = 0;
    let mut rest = text;
    'signs: while let [first, others @ ..] = rest {
        if *first == b'-' {
            count += 1;
        } else if !is_blank(*first) {
            return (count, rest);
        }
        rest = others;
    }
    (count, rest)
}

/// The number with the other sign. None where it does not fit 64 bits.
fn opposite(value: i64) -> Option<i64>
    ensures { result ≡ whole (neg_ℤ value) }
{
    value.checked_neg()
}

/// A number that is negated so many times. None where it does not fit 64 bits at some step.
fn negation_of(value: i64, times: usize) -> Option<i64>
    ensures { result ≡ negation_of times value }
{
    let mut negated = value;
    for _turn in 0..times {
        negated = opposite(negated)?;
    }
    Some(negated)
}

/// The digits at the front of a text, as a number.
#[tactic(auto, using(crate::proofs::DigitLemmas::integer_digits))]
fn read_literal(text: &[u8]) -> Option<Front<'_>>
    ensures value { option_map (λ front. (front.0, front.1.now)) result ≡ literal_front text.now }
    ensures shorter { IfSome result (λ front. length front.1.now ≤ length text.now) }
{
    let (digits, rest) = cut_digits(text);
    Some((read_i64(digits)?, rest))
}

#[tactic(auto, using(crate::proofs::DigitLemmas::digits_front, crate::proofs::DigitLemmas::digits_rest))]
fn cut_digits(text: &[u8]) -> (&[u8], &[u8])
    ensures digits { result.0.now ≡ digits_in text.now }
    ensures rest { result.1.now ≡ past_digits text.now }
    ensures shorter { length result.1.now ≤ length text.now }
{
    text.split_at(text.len() - past_digits(text).len())
}

/// The text without the digits at its front.
fn past_digits(text: &[u8]) -> &[u8]
    ensures text { result.now ≡ past_digits text.now }
    ensures shorter { length result.now ≤ length text.now }
{
    let mut rest = text;
    'digits: while let [first, others @ ..] = rest {
        if !first.is_ascii_digit() {
            return rest;
        }
        rest = others;
    }
    rest
}
