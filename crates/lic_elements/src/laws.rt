//! Laws of white space at the ends of texts, each the contract of a function that does nothing.
ghost use Rattle.std.specs.Prelude.{◌≡◌, ◌++◌, List, true, false};
ghost use Rattle.lic_ere.specs.Located.{Located};
ghost use Rattle.lic_elements.specs.Texts.{are_spaces, begins_in_space, ends_in_space, trim_end, trim_start};

/// What is taken off the front of a text is white space, and all of it.
pub fn white_space_is_taken_off_the_start()
    ensures { (text : List Located) → (space : List Located) × (text ≡ space ++ trim_start text)
        × (are_spaces space ≡ true) × (begins_in_space (trim_start text) ≡ false) }
{}

/// What is taken off the end of a text is white space, and all of it.
pub fn white_space_is_taken_off_the_end()
    ensures { (text : List Located) → (space : List Located) × (text ≡ trim_end text ++ space)
        × (are_spaces space ≡ true) × (ends_in_space (trim_end text) ≡ false) }
{}
