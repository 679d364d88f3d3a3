//! Lists of properties among the words.
ghost use Rattle.std.specs.Prelude.{◌≡◌};
ghost use Rattle.std.specs.List.{list_all, list_any};
ghost use Rattle.command_words.specs.Lists.{list_words, is_among, is_property, is_twice_among, property_words, required_of};

use crate::Required;

// The words of the properties.
const PROPERTIES: [&str; 5] = ["monotone", "strict", "isotone", "cancellative", "total"];

/// The properties that the list names, if it is one or more of their words, separated by commas, none twice.
pub fn required_of(list: &str) -> Option<Required>
    ensures { result ≡ required_of list.now }
{
    if !has_properties_alone(list) || has_property_twice(list) {
        return None;
    }
    Some(Required {
        monotone: has_word(list, "monotone"),
        strict: has_word(list, "strict"),
        isotone: has_word(list, "isotone"),
        cancellative: has_word(list, "cancellative"),
        total: has_word(list, "total"),
    })
}

// Whether each word of the list is that of a property.
fn has_properties_alone(list: &str) -> bool
    ensures { result ≡ list_all is_property (list_words list.now) }
{
    list.split(',').all(is_property)
}

// Whether the word is that of a property.
fn is_property(word: &str) -> bool
    ensures { result ≡ is_property word.now }
{
    PROPERTIES.iter().any(|property| *property == word)
}

// Whether the word of a property stands twice in the list.
fn has_property_twice(list: &str) -> bool
    ensures { result ≡ list_any (is_twice_among (list_words list.now)) property_words }
{
    PROPERTIES
        .iter()
        .any(|property| has_word_twice(list, property))
}

// Whether the word stands in the list.
fn has_word(list: &str, word: &str) -> bool
    ensures { result ≡ is_among (list_words list.now) word.now }
{
    list.split(',').any(|part| part == word)
}

// Whether the word stands twice in the list.
fn has_word_twice(list: &str, word: &str) -> bool
    ensures { result ≡ is_twice_among (list_words list.now) word.now }
{
    list.split(',').filter(|part| *part == word).count() > 1
}
