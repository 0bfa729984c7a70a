ghost use Rattle.std.specs.Prelude.{◌≡◌, ◌↔◌, ◌⊎◌, IsTrue, codes, true};
ghost use Rattle.dj_names.specs.trusted.Names.{IsNameByte, IsUnqualifiedName, IsMethodName, IsClassName, HasNoAngle};
ghost use Rattle.dj_names.specs.trusted.NameReading.{reads_class_name, is_refused};
ghost use Rattle.dj_names.specs.Tests.{unqualified_name_test, method_name_test, class_name_test};

/// Whether the text is an unqualified name (JVMS 4.2.2).
pub fn is_unqualified_name(text: &[u8]) -> bool
    ensures means { IsTrue result ↔ IsUnqualifiedName text.now }
    ensures computes { result ≡ unqualified_name_test text.now }
{
    unqualified(text)
}

fn unqualified(text: &[u8]) -> bool
    ensures { IsTrue result ↔ IsUnqualifiedName text.now }
{
    !text.is_empty() && text.iter().all(|b| is_name_byte(*b))
}

/// Whether a byte may be in an unqualified name.
fn is_name_byte(byte: u8) -> bool
    ensures { IsTrue result ↔ IsNameByte byte }
{
    !matches!(byte, b'.' | b';' | b'[' | b'/')
}

/// Whether the text is an unqualified name that a method may have (JVMS 4.2.2).
pub fn is_method_name(text: &[u8]) -> bool
    ensures means { IsTrue result ↔ IsMethodName text.now }
    ensures computes { result ≡ method_name_test text.now }
{
    names_method(text)
}

fn names_method(text: &[u8]) -> bool
    ensures { IsTrue result ↔ IsMethodName text.now }
{
    unqualified(text) && (is_special(text) || is_plain(text))
}

fn is_special(text: &[u8]) -> bool
    ensures { IsTrue result ↔ ((text.now ≡ codes "<init>") ⊎ (text.now ≡ codes "<clinit>")) }
{
    text == b"<init>".as_slice() || text == b"<clinit>".as_slice()
}

fn is_plain(text: &[u8]) -> bool
    ensures { IsTrue result ↔ HasNoAngle text.now }
{
    text.iter().all(|b| !matches!(*b, b'<' | b'>'))
}

/// Whether the text is a class or interface name in its internal form (JVMS 4.2.1).
pub fn is_class_name(text: &[u8]) -> bool
    ensures means { IsTrue result ↔ IsClassName text.now }
    ensures computes { result ≡ class_name_test text.now }
{
    names_class(text)
}

/// Whether the text is a class name, by one pass over its bytes.
#[tactic(auto, unfolding(crate::specs::trusted::NameReading::reads_class_name))]
pub(crate) fn names_class(text: &[u8]) -> bool
    ensures { result ≡ reads_class_name true text.now }
{
    let mut fresh = true;
    let mut rest = text;
    while let [byte, after @ ..] = rest {
        if refuses(fresh, *byte) {
            return false;
        }
        fresh = *byte == b'/';
        rest = after;
    }
    !fresh
}

/// Whether a name can't go on with this byte; `fresh` says whether a part begins here.
fn refuses(fresh: bool, byte: u8) -> bool
    ensures { result ≡ is_refused fresh byte }
{
    byte == b'.' || byte == b';' || byte == b'[' || (fresh && byte == b'/')
}
