//! Laws of the definitions, as contracts of functions that do nothing.

ghost use Rattle.cert_laws.specs.FileShown.{ValidShowsFile};
ghost use Rattle.cert_laws.specs.Shown.{ValidShowsGraph};
ghost use Rattle.cert_laws.specs.Told.{ToldOutlineIsShown};

/// A valid part lists exactly the leaders of the program, and exactly the reached terminators that
/// return. Whoever made the part, and which ranks and reasons it names, does not matter.
pub fn a_valid_part_shows_the_graph()
    ensures { ValidShowsGraph }
{}

/// A valid certificate of a file lists the leaders and the returns of its program under the cuts of
/// its jump tables. The blocks and edges that these lines tell are those of the program.
pub fn a_valid_certificate_shows_the_file()
    ensures file { ValidShowsFile }
    ensures outline { ToldOutlineIsShown }
{}
