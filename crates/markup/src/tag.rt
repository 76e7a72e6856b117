//! The elements that there are: none that runs a script, loads a file or embeds anything. A title and a style are
//! made whole, by functions of [`Markup`], since no element begins in them.
ghost use Rattle.std.specs.Prelude.{◌≡◌};
ghost use Rattle.markup.specs.Html.{ends_line, tag_name, void_ends_line, void_name};

/// An element with content.
#[derive(Clone, Copy)]
pub enum Tag {
    Html,
    Head,
    Body,
    Header,
    Nav,
    Main,
    Section,
    H1,
    H2,
    H3,
    Paragraph,
    List,
    Item,
    Table,
    Caption,
    TableHead,
    TableBody,
    Row,
    HeadCell,
    Cell,
    Link,
    Bold,
    Emphasis,
    Small,
    Span,
    Code,
    Isolated,
    Italic,
    Division,
    Details,
    Summary,
    Form,
    Button,
}

/// An element without content.
#[derive(Clone, Copy)]
pub enum Void {
    Meta,
    Input,
}

impl Tag {
    /// Its name in HTML.
    pub(crate) fn name(self) -> &'static [u8]
        ensures { result.now ≡ tag_name self }
    {
        match self {
            Tag::Html => b"html",
            Tag::Head => b"head",
            Tag::Body => b"body",
            Tag::Header => b"header",
            Tag::Nav => b"nav",
            Tag::Main => b"main",
            Tag::Section => b"section",
            Tag::H1 => b"h1",
            Tag::H2 => b"h2",
            Tag::H3 => b"h3",
            Tag::Paragraph => b"p",
            Tag::List => b"ul",
            Tag::Item => b"li",
            Tag::Table => b"table",
            Tag::Caption => b"caption",
            Tag::TableHead => b"thead",
            Tag::TableBody => b"tbody",
            Tag::Row => b"tr",
            Tag::HeadCell => b"th",
            Tag::Cell => b"td",
            Tag::Link => b"a",
            Tag::Bold => b"b",
            Tag::Emphasis => b"em",
            Tag::Small => b"small",
            Tag::Span => b"span",
            Tag::Code => b"code",
            Tag::Isolated => b"bdi",
            Tag::Italic => b"i",
            Tag::Division => b"div",
            Tag::Details => b"details",
            Tag::Summary => b"summary",
            Tag::Form => b"form",
            Tag::Button => b"button",
        }
    }

    /// Whether a line feed follows its end.
    pub(crate) fn ends_line(self) -> bool
        ensures { result ≡ ends_line self }
    {
        match self {
            Tag::HeadCell
            | Tag::Cell
            | Tag::Caption
            | Tag::TableBody
            | Tag::Link
            | Tag::Bold
            | Tag::Emphasis
            | Tag::Small
            | Tag::Span
            | Tag::Code
            | Tag::Isolated
            | Tag::Italic
            | Tag::Division
            | Tag::Html
            | Tag::Button => false,
            _ => true,
        }
    }
}

impl Void {
    /// Its name in HTML.
    pub(crate) fn name(self) -> &'static [u8]
        ensures { result.now ≡ void_name self }
    {
        match self {
            Void::Meta => b"meta",
            Void::Input => b"input",
        }
    }

    /// Whether a line feed follows it.
    pub(crate) fn ends_line(self) -> bool
        ensures { result ≡ void_ends_line self }
    {
        match self {
            Void::Meta => true,
            Void::Input => false,
        }
    }
}
