//! Laws over the definitions alone.
ghost use Rattle.std.specs.Prelude.{◌≡◌, ◌⊎◌, ◌↔◌, List, ℕ, Some, None, map};
ghost use Rattle.std.specs.List.{All, Contains};
ghost use Rattle.vk_spec.specs.Lists.{IsWithin};
ghost use Rattle.vk_spec.specs.Paths.{Path};
ghost use Rattle.vk_base.specs.Paths.{IsPath, text_of_path};
ghost use Rattle.vk_entry.specs.Contents.{Content, content_of, contents_text};
ghost use Rattle.vk_entry.specs.ContentLists.{AreContents, IsList, IsListable, IsRefused};
ghost use Rattle.vk_entry.specs.ContentsIn.{contents_in};
ghost use Rattle.vk_entry.specs.Packages.{File, HasFile, IsOf, IsPackage, IsWith, bytes_at};
ghost use Rattle.vk_entry.specs.Answers.{Ends, IsThese, IsTold, Reading};
ghost use Rattle.vk_entry.specs.declared.reading.EntryFault.{EntryFault};

/// No two paths have one text.
pub fn a_text_is_that_of_one_path()
    ensures { (one other : Path) → IsPath one → IsPath other
        → text_of_path one ≡ text_of_path other → one ≡ other }
{}

/// A package's file is found by its path, and what is found is a file's.
pub fn a_file_is_found_by_its_path()
    ensures found { (files : List File) (file : File) → IsPackage files → Contains files file
        → bytes_at file.path files ≡ Some file.bytes }
    ensures only { (path : Path) (bytes : List ℕ) (files : List File)
        → bytes_at path files ≡ Some bytes → IsOf path bytes files }
    ensures none { (path : Path) (files : List File) → bytes_at path files ≡ None
        → HasFile path files → ⊥ }
{}

/// A package with one file more has this file and those it had. Two packages that have the same
/// files are one.
pub fn a_package_is_its_files()
    ensures one { (files others : List File) → IsPackage files → IsPackage others
        → IsWithin files others → IsWithin others files → files ≡ others }
    ensures put { (file : File) (old new : List File) → IsWith file old new → (other : File)
        → Contains new other ↔ ((other ≡ file) ⊎ Contains old other) }
{}

/// What is read is written again as the same bytes. The list of files that keep the rules is read
/// as these files: nothing else is answered for it, unless memory runs out.
pub fn a_contents_list_is_read_as_it_is_written()
    ensures again { (bytes : List ℕ) (cs : List Content) → IsList bytes cs
        → bytes ≡ contents_text cs }
    ensures read { (cs : List Content) → AreContents cs → (answer : Reading)
        → Ends (contents_text cs) answer → IsThese cs answer }
{}

/// A package's files keep the rules of a list where each path is right and no file is too large.
pub fn a_package_has_a_contents_list()
    ensures { (files : List File) → IsPackage files → All IsListable files
        → AreContents (map content_of files) }
{}

/// Bytes are the list of these files only, or break a list in this way only, and never both.
pub fn bytes_have_one_reading()
    ensures one { (bytes : List ℕ) (cs ds : List Content) → IsList bytes cs → IsList bytes ds
        → cs ≡ ds }
    ensures one_fault { (bytes : List ℕ) (fault other : EntryFault) → IsRefused bytes fault
        → IsRefused bytes other → fault ≡ other }
    ensures never_both { (bytes : List ℕ) (cs : List Content) (fault : EntryFault)
        → IsList bytes cs → IsRefused bytes fault → ⊥ }
{}

/// The function on bytes gives the files of which they are the list, and none exactly where they
/// are no list. What reading answers is what it gives, unless memory runs out.
pub fn a_contents_list_is_read_by_a_function()
    ensures files { (bytes : List ℕ) (cs : List Content)
        → (contents_in bytes ≡ Some cs) ↔ IsList bytes cs }
    ensures none { (bytes : List ℕ)
        → (contents_in bytes ≡ None) ↔ ((cs : List Content) → IsList bytes cs → ⊥) }
    ensures refused { (bytes : List ℕ) (fault : EntryFault) → IsRefused bytes fault
        → contents_in bytes ≡ None }
    ensures told { (bytes : List ℕ) (answer : Reading) → Ends bytes answer
        → IsTold (contents_in bytes) answer }
{}
