//! The words of the command.
ghost use Rattle.std.specs.Prelude.{◌≡◌, true, Some, IfOk, OnErr, bytes_eq, codes, is_some, map, option_map, string_bytes};
ghost use Rattle.std.specs.List.{list_any};
ghost use Rattle.clap.specs.Words.{FailsBy, HasMatchesOf, fault_of, subcommand_rows_of};
ghost use Rattle.command_words.specs.Words as form;
ghost use Rattle.command_words.specs.Command as parsed;

use clap::error::ErrorKind;
use clap::{Arg, ArgMatches, Command, Error};
use ndis_base::OutOfMemory;
use std::alloc::Global;

fn is_lane(byte: u8) -> bool
    ensures { result ≡ form.is_lane byte }
{
    (b'0'..=b'7').contains(&byte)
}

/// Whether a text has digits of lanes, joined by commas.
fn are_joined(text: &[u8]) -> bool
    ensures { result ≡ is_some (form.joined_lanes text.now) }
{
    let mut rest = text;
    loop {
        match rest {
            [digit] => return is_lane(*digit),
            [digit, comma, others @ ..] => {
                if !is_lane(*digit) || *comma != b',' {
                    return false;
                }
                rest = others;
            }
            [] => return false,
        }
    }
}

/// Whether a text has 1 to 16,384 digits of lanes, joined by commas.
fn are_lanes(text: &[u8]) -> bool
    ensures { result ≡ is_some (form.lanes_in text.now) }
{
    text.len() <= 32_767 && are_joined(text)
}

/// The lanes of a text that has digits of lanes, joined by commas.
fn joined(alloc: Global, text: &[u8]) -> Result<Vec<u8>, OutOfMemory>
    requires { is_some (form.joined_lanes text.now) ≡ true }
    ensures { IfOk result (λ lanes. Some lanes.items ≡ form.joined_lanes text.now) }
{
    let mut lanes = Vec::new(alloc);
    let mut rest = text;
    loop {
        match rest {
            [digit] => {
                lanes.push(*digit - b'0')?;
                return Ok(lanes);
            }
            [digit, _comma, others @ ..] => {
                lanes.push(*digit - b'0')?;
                rest = others;
            }
            [] => unreachable!(),
        }
    }
}

/// The order of lanes that a text is, if it is one.
fn lanes_of(alloc: Global, text: &[u8]) -> Result<Option<Vec<u8>>, OutOfMemory>
    ensures told { IfOk result (λ o. option_map (λ lanes. lanes.items) o ≡ form.lanes_in text.now) }
    ensures memory { OnErr result (is_some (form.lanes_in text.now) ≡ true) }
{
    if !are_lanes(text) {
        return Ok(None);
    }
    let lanes = joined(alloc, text)?;
    Ok(Some(lanes))
}

/// What clap reads in the words: the one subcommand `replay` with its one option, and no help.
fn matches_in<'a>(alloc: Global, words: &'a [String]) -> Result<ArgMatches<'a>, Error>
    ensures matches { IfOk result (HasMatchesOf parsed.command (map (λ w. string_bytes w) words.now)) }
    ensures kinds { FailsBy (fault_of parsed.command (map (λ w. string_bytes w) words.now)) result }
{
    let order = Arg::new(alloc, "order").long("order");
    let replay = Command::new(alloc, "replay").arg(order)?;
    let command = Command::new(alloc, "ndis")
        .no_binary_name(true)
        .disable_help_flag(true)
        .disable_help_subcommand(true)
        .subcommand_required(true)
        .subcommand(replay)?;
    command.try_get_matches_from(words)
}

/// The order that the matches ask for: that of the option's value, or the empty one.
fn order_matched(alloc: Global, matches: &ArgMatches<'_>) -> Result<Option<Vec<u8>>, OutOfMemory>
    ensures { IfOk result (λ o. option_map (λ lanes. lanes.items) o ≡ parsed.order_asked (subcommand_rows_of matches.now)) }
{
    match matches.subcommand() {
        Some((_name, replay)) => match replay.get_str("order") {
            Some(lanes) => lanes_of(alloc, lanes.as_bytes()),
            None => Ok(Some(Vec::new(alloc))),
        },
        None => Ok(None),
    }
}

/// Whether a word is `--`. clap lets it stand behind any form, but it is in none.
fn has_dashes(words: &[String]) -> bool
    ensures { result ≡ list_any (λ w. bytes_eq (string_bytes w) (codes "--")) words.now }
{
    words.iter().any(|word| word.as_str() == "--")
}

/// The order of lanes that the words ask for, as clap reads them.
fn order_read(alloc: Global, words: &[String]) -> Result<Option<Vec<u8>>, OutOfMemory>
    ensures { IfOk result (λ o. option_map (λ lanes. lanes.items) o ≡ form.order_in (map (λ w. string_bytes w) words.now)) }
{
    if has_dashes(words) {
        return Ok(None);
    }
    match matches_in(alloc, words) {
        Ok(matches) => order_matched(alloc, &matches),
        Err(error) => match error.kind() {
            ErrorKind::OutOfMemory => Err(OutOfMemory),
            _ => Ok(None),
        },
    }
}

/// Whether a word names an order and holds it.
fn are_named_lanes(word: &[u8]) -> bool
    ensures { result ≡ is_some (form.named_in word.now) }
{
    match word.strip_prefix(b"--order=") {
        Some(lanes) => are_lanes(lanes),
        None => false,
    }
}

/// Whether the words are a form of the command. It takes no memory.
fn are_form(words: &[String]) -> bool
    ensures { result ≡ form.is_form (map (λ w. string_bytes w) words.now) }
{
    match words {
        [] => false,
        [word] => word.as_str() == "replay",
        [word, order] => word.as_str() == "replay" && are_named_lanes(order.as_bytes()),
        [word, name, lanes] => {
            word.as_str() == "replay" && name.as_str() == "--order" && are_lanes(lanes.as_bytes())
        }
        [_, _, _, _, ..] => false,
    }
}

/// The order of lanes in which the words ask for a replay. The forms are `replay` alone, whose order is empty, and
/// `replay` with `--order` and 1 to 16,384 digits 0 to 7 that are joined by commas, in one word or two. None where
/// the words are no form. Memory may be wanting only where they are one: where clap lacks it, the words are looked at
/// without it.
pub fn order_of(alloc: Global, words: &[String]) -> Result<Option<Vec<u8>>, OutOfMemory>
    ensures told { IfOk result (λ o. option_map (λ lanes. lanes.items) o ≡ form.order_in (map (λ w. string_bytes w) words.now)) }
    ensures memory { OnErr result (is_some (form.order_in (map (λ w. string_bytes w) words.now)) ≡ true) }
{
    match order_read(alloc, words) {
        Err(OutOfMemory) if !are_form(words) => Ok(None),
        read => read,
    }
}
