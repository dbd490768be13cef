//! Laws of the named keywords and symbols.

ghost use Rattle.std.specs.Prelude.{◌≡◌, List, Some, bytes_eq, map, position, ℕ};
ghost use Rattle.std.specs.Option.{option_map};
ghost use Rattle.obq_tables.specs.Tables.{keywords, symbols};
ghost use Rattle.obq_model.specs.Tokens.{Mark, kind_of, word_kind};
ghost use Rattle.obq_model.specs.WordRows.{keyword_texts, symbol_texts};

/// Each named keyword is the token of its text, and each keyword of the table has a name.
pub fn keywords_are_rows()
    ensures kinds { map (λ p. word_kind p.0 (position (λ k. bytes_eq k p.0) keywords)) keyword_texts ≡ map (λ p. p.1) keyword_texts }
    ensures texts { map (λ p. p.0) keyword_texts ≡ keywords }
{}

/// Each named symbol is the token of its text, and each symbol of the table has a name.
pub fn symbols_are_rows()
    ensures kinds { map (λ p. option_map (λ k. kind_of (Mark k)) (position (λ s. bytes_eq s p.0) symbols)) symbol_texts ≡ map (λ p. Some p.1) symbol_texts }
    ensures texts { map (λ p. p.0) symbol_texts ≡ symbols }
{}
