//! The names of elements and attributes, and the parts of a page that have places (HTML, SVG 2).

ghost use Rattle.std.specs.Prelude.{◌≡◌};
ghost use Rattle.fhir_markup.specs.Markup.{tag_text, name_text, part_text, is_void};

/// The name of an element. None of them runs or loads anything.
#[derive(Clone, Copy, Debug)]
pub enum Tag {
    /// `html`: the page.
    Html,
    /// `head`: what is said of the page.
    Head,
    /// `meta`: one such thing. It has no end tag.
    Meta,
    /// `title`: the title of a page or a picture.
    Title,
    /// `style`: how the page looks.
    Style,
    /// `body`: what is shown.
    Body,
    /// `main`: the page's content.
    Main,
    /// `header`: the head of it.
    Header,
    /// `section`: a part with a heading.
    Section,
    /// `h1`: the page's heading.
    H1,
    /// `h2`: the heading of a part.
    H2,
    /// `h3`: the heading of a part of a part.
    H3,
    /// `h4`: the heading below that.
    H4,
    /// `p`: a paragraph.
    P,
    /// `dl`: names, each with a value.
    Dl,
    /// `dt`: such a name.
    Dt,
    /// `dd`: such a value.
    Dd,
    /// `ul`: a list.
    Ul,
    /// `li`: an item of a list.
    Li,
    /// `div`: a group.
    Div,
    /// `span`: words in a line.
    Span,
    /// `a`: a link.
    A,
    /// `code`: words of a package.
    Code,
    /// `strong`: words that matter most.
    Strong,
    /// `pre`: lines as they are.
    Pre,
    /// `mark`: what is marked.
    Mark,
    /// `table`: a table.
    Table,
    /// `thead`: its head.
    Thead,
    /// `tbody`: a group of its rows.
    Tbody,
    /// `tr`: a row.
    Tr,
    /// `th`: a cell that heads others.
    Th,
    /// `td`: a cell.
    Td,
    /// `svg`: a picture.
    Svg,
    /// `g`: a group in a picture.
    G,
    /// `path`: a shape.
    Path,
    /// `rect`: a line, or a rectangle.
    Rect,
    /// `text`: words in a picture.
    Text,
    /// `tspan`: some of them.
    Tspan,
}

impl Tag {
    /// The name as it is written.
    pub fn text(self) -> &'static str
        ensures { result.now ≡ tag_text self }
    {
        match self {
            Tag::Html => "html",
            Tag::Head => "head",
            Tag::Meta => "meta",
            Tag::Title => "title",
            Tag::Style => "style",
            Tag::Body => "body",
            Tag::Main => "main",
            Tag::Header => "header",
            Tag::Section => "section",
            Tag::H1 => "h1",
            Tag::H2 => "h2",
            Tag::H3 => "h3",
            Tag::H4 => "h4",
            Tag::P => "p",
            Tag::Dl => "dl",
            Tag::Dt => "dt",
            Tag::Dd => "dd",
            Tag::Ul => "ul",
            Tag::Li => "li",
            Tag::Div => "div",
            Tag::Span => "span",
            Tag::A => "a",
            Tag::Code => "code",
            Tag::Strong => "strong",
            Tag::Pre => "pre",
            Tag::Mark => "mark",
            Tag::Table => "table",
            Tag::Thead => "thead",
            Tag::Tbody => "tbody",
            Tag::Tr => "tr",
            Tag::Th => "th",
            Tag::Td => "td",
            Tag::Svg => "svg",
            Tag::G => "g",
            Tag::Path => "path",
            Tag::Rect => "rect",
            Tag::Text => "text",
            Tag::Tspan => "tspan",
        }
    }

    /// Whether the element has no end tag (HTML, void elements).
    pub fn is_void(self) -> bool
        ensures { result ≡ is_void self }
    {
        matches!(self, Tag::Meta)
    }
}

/// The name of an attribute that has a text or a number. None of them has an address, or what is run.
#[derive(Clone, Copy, Debug)]
pub enum AttributeName {
    /// `charset`: how the page's bytes are read.
    Charset,
    /// `http-equiv`: which header of HTTP is meant.
    HttpEquiv,
    /// `content`: what it says.
    Content,
    /// `name`: what is said.
    Name,
    /// `lang`: the language.
    Lang,
    /// `class`: what the element is, for its looks.
    Class,
    /// `scope`: what a cell heads.
    Scope,
    /// `colspan`: over how many columns a cell stands.
    Colspan,
    /// `tabindex`: whether keys lead to it.
    Tabindex,
    /// `role`: what the element is, for those who hear it.
    Role,
    /// `width`: how wide it is.
    Width,
    /// `height`: how high it is.
    Height,
    /// `x`: how far from the left it stands.
    X,
    /// `y`: how far from the top it stands.
    Y,
    /// `d`: the lines of a shape.
    D,
    /// `dx`: how far it stands from what is before it.
    Dx,
}

impl AttributeName {
    /// The name as it is written.
    pub fn text(self) -> &'static str
        ensures { result.now ≡ name_text self }
    {
        match self {
            AttributeName::Charset => "charset",
            AttributeName::HttpEquiv => "http-equiv",
            AttributeName::Content => "content",
            AttributeName::Name => "name",
            AttributeName::Lang => "lang",
            AttributeName::Class => "class",
            AttributeName::Scope => "scope",
            AttributeName::Colspan => "colspan",
            AttributeName::Tabindex => "tabindex",
            AttributeName::Role => "role",
            AttributeName::Width => "width",
            AttributeName::Height => "height",
            AttributeName::X => "x",
            AttributeName::Y => "y",
            AttributeName::D => "d",
            AttributeName::Dx => "dx",
        }
    }
}

/// What of a page has a place.
#[derive(Clone, Copy, Debug)]
pub enum Part {
    /// A heading of the page.
    Heading,
    /// A profile.
    Profile,
    /// Its differences.
    Differences,
}

impl Part {
    /// The letter of its places.
    pub fn text(self) -> &'static str
        ensures { result.now ≡ part_text self }
    {
        match self {
            Part::Heading => "h",
            Part::Profile => "p",
            Part::Differences => "d",
        }
    }
}
