// Tables.
ghost use Rattle.std.specs.Prelude.{◌≡◌, ◌<◌, ◌≤◌, [], true, length, OnOk};
ghost use Rattle.std.specs.List.{list_any};
ghost use Rattle.std.specs.Str.{bytes_eq};
ghost use Rattle.alg_model.specs.declared.alg.TheConstants.{MAX_TABLE_NAMES};
ghost use Rattle.raml_syntax.specs.Differing.{differ};
ghost use Rattle.raml_syntax.specs.Leaves.{IsReady};
ghost use Rattle.raml_syntax.specs.Marks.{own_name};
ghost use Rattle.raml_syntax.specs.Rows.{MoreRows, OneRow, row_names};
ghost use Rattle.raml_syntax.specs.Sequences.{One, Reads};
ghost use Rattle.raml_syntax.specs.Trees.{Table};

use crate::AlgError;
use crate::expect::{take_mark, take_word};
use crate::maps::{AfterRow, images, read_maps};
use crate::values::{new_name, read_values};
use alg_model::{TableRow, TableSpec};
use meta_base::{List, Text};
use raml_lex::{TokenKind, Tokens};
use std::alloc::Global;

// Whether one of the rows has this name.
fn is_row(rows: &[TableRow], word: &[u8]) -> bool
    ensures { result ≡ list_any (λ row. bytes_eq row.name word.now) rows.now }
{
    rows.iter().any(|row| row.name.as_str().as_bytes() == word)
}

fn read_row_name(
    alloc: Global,
    tokens: &mut Tokens<'_>,
    rows: &[TableRow],
) -> Result<Text, AlgError>
    requires { IsReady tokens.old }
    ensures ready { OnOk result (IsReady tokens.new) }
    ensures room { OnOk result (length rows.now < MAX_TABLE_NAMES) }
    ensures name { Reads (One (own_name (row_names rows.now))) tokens.old result tokens.new }
{
    let word = take_word(tokens)?;
    new_name(alloc, word, rows.len(), is_row(rows, word.text))
}

// Reads a row after these rows, and the mark after it.
fn read_row(
    alloc: Global,
    tokens: &mut Tokens<'_>,
    names: &[Text],
    rows: &[TableRow],
) -> Result<(TableRow, AfterRow), AlgError>
    requires ready { IsReady tokens.old }
    requires few { length names.now ≤ MAX_TABLE_NAMES }
    requires distinct { differ names.now ≡ true }
    ensures ready { OnOk result (IsReady tokens.new) }
    ensures room { OnOk result (length rows.now < MAX_TABLE_NAMES) }
    ensures row { Reads (OneRow names.now (row_names rows.now)) tokens.old result tokens.new }
{
    let name = read_row_name(alloc, tokens, rows)?;
    take_mark(tokens, TokenKind::Colon)?;
    let (maps, after) = read_maps(alloc, tokens, names)?;
    let images = images(alloc, names, maps.as_slice())?;
    Ok((TableRow { name, images }, after))
}

// Reads the rows, and the brace after them.
fn read_rows(
    alloc: Global,
    tokens: &mut Tokens<'_>,
    names: &[Text],
) -> Result<List<TableRow>, AlgError>
    requires ready { IsReady tokens.old }
    requires few { length names.now ≤ MAX_TABLE_NAMES }
    requires distinct { differ names.now ≡ true }
    ensures ready { OnOk result (IsReady tokens.new) }
    ensures rows { Reads (MoreRows names.now []) tokens.old result tokens.new }
{
    let mut rows = List::new(alloc);
    loop {
        let (row, after) = read_row(alloc, tokens, names, rows.as_slice())?;
        rows.push(row)?;
        if let AfterRow::End = after {
            return Ok(rows);
        }
    }
}

/// Reads a table, from its brace on.
pub fn read_table(alloc: Global, tokens: &mut Tokens<'_>) -> Result<TableSpec, AlgError>
    requires { IsReady tokens.old }
    ensures ready { OnOk result (IsReady tokens.new) }
    ensures table { Reads Table tokens.old result tokens.new }
{
    take_mark(tokens, TokenKind::LeftBrace)?;
    let values = read_values(alloc, tokens)?;
    let rows = read_rows(alloc, tokens, values.names.as_slice())?;
    Ok(TableSpec {
        names: values.names,
        ranks: values.ranks,
        rows,
    })
}
