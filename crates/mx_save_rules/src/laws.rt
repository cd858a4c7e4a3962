//! What holds of everything that is printed. Each law is a function that does nothing: its contract is the law.
ghost use Rattle.mx_save_rules.specs.Laws.{LinesTell, ObjectsTell, EachIsOneLine};
ghost use Rattle.mx_save_rules.specs.Status.{OrderDoesNotMatter};

/// Lines show each URL's verdict, code, status, length, file and text: equal texts come only
/// from as many URLs that ended alike. So neither a list nor a server can forge a line.
pub fn lines_tell()
    ensures { LinesTell }
{}

/// Objects show that, and the hops, the tries, the framing and the error.
pub fn objects_tell()
    ensures { ObjectsTell }
{}

/// What is printed of a URL is one line: it ends with LF, and has none before.
pub fn each_is_one_line()
    ensures { EachIsOneLine }
{}

/// In whatever order the ends come, the exit status is the first code that isn't 0, in the order of the URLs.
pub fn order_does_not_matter()
    ensures { OrderDoesNotMatter }
{}
