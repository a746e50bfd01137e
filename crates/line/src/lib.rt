// A received line judged (paper 01, "Lines" and "Turned away" 4 to 10; chapters 7 and 9): from its characters alone to
// a command, or to the number that turns it away. Beside it what others ask of commands and of five distances.
// Every public function is total: it has no premise and states its result for every input. Assumes nothing.
#![tactic(auto)]

ghost use Rattle.std.specs.Prelude.{not, ◌≡◌};
ghost use Rattle.digits.specs.Digits.{six_digits, digit_of, number_of, Under};
ghost use Rattle.digits.specs.Characters.{digit_characters, is_one};
ghost use Rattle.line.specs.Line.{is_letter, is_switch, is_ident, is_number, value_of, char_at, silent_of, ident_of, digit_count};
ghost use Rattle.line.specs.declared.Refusal.TheVariants as N;
ghost use Rattle.line.specs.Line.{digit_chars, refusal_number, turned_away, judge_row, judge_value, judge_of};
ghost use Rattle.line.specs.Case.{CaseIgnored};
ghost use Rattle.line.specs.Verdict.{verdict_of, line_verdict};

use crate::command::Command;
use crate::row::Row;
use digits::Number;

pub mod command;
pub mod distances;
mod row;

// An accepted line: what it asks for, and its six digits as a number, absent ones 0, kept for the echo of an order.
#[derive(Clone, Copy)]
pub struct Accepted {
    pub command: Command,
    pub digits: u32,
}

// What turns a line away, in checking order.
#[derive(Clone, Copy, PartialEq, Eq)]
pub enum Refusal {
    // 4: under 2 or over 9 characters.
    Length,
    // 5: the first is not P, Q, q or W.
    Letter,
    // 6: the second is not 0 or 4.
    Switch,
    // 7: a later one is no digit, or the ninth no identification.
    Digits,
    // 8: the code is absent or not in the table.
    Code,
    // 9: the code takes not as many digits.
    Count,
    // 10: a value is out of its range.
    Range,
}

// The number of the paper.
impl From<Refusal> for u8 {
    ghost from_gives = { λ refusal number. number ≡ refusal_number refusal };

    fn from(refusal: Refusal) -> u8 {
        match refusal {
            Refusal::Length => 4,
            Refusal::Letter => 5,
            Refusal::Switch => 6,
            Refusal::Digits => 7,
            Refusal::Code => 8,
            Refusal::Count => 9,
            Refusal::Range => 10,
        }
    }
}

// P, Q, q or W.
fn is_letter(c: u8) -> bool
    ensures { result ≡ is_letter c }
{
    matches!(c, b'P' | b'Q' | b'q' | b'W')
}

// 0 or 4.
fn is_switch(c: u8) -> bool
    ensures { result ≡ is_switch c }
{
    matches!(c, b'0' | b'4')
}

// Whether a character is an identification: one of the 22 digits, a letter in either case (paper 02, 7/14).
pub fn is_ident(c: u8) -> bool
    ensures value { result ≡ is_ident (digit_of c) }
    ensures value_2 { result ≡ is_one c digit_characters }
{
    digits::read_digit(c).is_some()
}

// The character at a place of the line; an absent one counts as the digit 0.
fn char_at(line: &[u8], i: usize) -> u8
    ensures { result ≡ char_at line.now i }
{
    line.get(i).copied().unwrap_or(b'0')
}

// The six digits of the line as a number, if all are digits.
fn read_digits(line: &[u8]) -> Option<Number>
    ensures { result ≡ number_of (digit_chars line.now) }
{
    digits::read_six([2, 3, 4, 5, 6, 7].map(|i| char_at(line, i)))
}

// How many digits the line has.
fn digit_count(line: &[u8]) -> u32
    ensures { result ≡ digit_count line.now }
{
    line.len().saturating_sub(2).min(6) as u32
}

// Checks 8 to 10, and the command of the row. The row is taken apart where it is told: handed on whole, it kept the
// compiler from seeing through a line that it knows, as a trial's start, whose tick took 1.6 times the instructions.
fn judge_row(row: Option<Row>, count: u32, number: u32) -> Result<Accepted, Refusal>
    ensures { result ≡ judge_row row count number }
{
    let Some(Row { least, command }) = row else {
        return Err(Refusal::Code);
    };
    if !command::within(count, least as u32, 6) {
        return Err(Refusal::Count);
    }
    if !command::fits(command) {
        return Err(Refusal::Range);
    }
    Ok(Accepted {
        command,
        digits: number,
    })
}

// Check 7 of the digits, then 8 to 10.
fn judge_number(letter: u8, count: u32, number: Option<Number>) -> Result<Accepted, Refusal>
    requires { Under six_digits number }
    ensures { result ≡ turned_away N.Digits (not (is_number number)) (judge_value letter count (value_of number)) }
{
    let Some(number) = number else {
        return Err(Refusal::Digits);
    };
    let n = number.value;
    judge_row(row::row_of(letter, count, n), count, n)
}

// Whether the line is silent.
pub fn is_silent(line: &[u8]) -> bool
    ensures { result ≡ silent_of line.now }
{
    char_at(line, 1) == b'4'
}

// The line's identification.
pub fn ident(line: &[u8]) -> Option<u8>
    ensures { result ≡ ident_of line.now }
{
    (line.len() == 9).then_some(char_at(line, 8))
}

// The line judged, of any length; its first ten characters tell an over-long one from a whole one.
pub fn judge(line: &[u8]) -> Result<Accepted, Refusal>
    ensures value { result ≡ judge_of line.now }
    ensures result_value { verdict_of result ≡ line_verdict line.now }
    ensures case_ignored { CaseIgnored }
{
    if line.len() < 2 || 9 < line.len() {
        return Err(Refusal::Length);
    }
    let letter = char_at(line, 0);
    if !is_letter(letter) {
        return Err(Refusal::Letter);
    }
    if !is_switch(char_at(line, 1)) {
        return Err(Refusal::Switch);
    }
    if !is_ident(char_at(line, 8)) {
        return Err(Refusal::Digits);
    }
    judge_number(letter, digit_count(line), read_digits(line))
}
