// The types of the messages that stand before the startup's end.
ghost use Rattle.std.specs.Prelude.{◌≡◌};
ghost use Rattle.client_framing.specs.Reading.{opening_code, IsRightlyNamed};

/// The type of an opening message, which its code says.
#[derive(Clone, Copy, Debug)]
pub enum OpeningType {
    /// A startup message of protocol 3.0.
    Startup,
    Cancel,
    Ssl,
    Gss,
    /// A startup message of the version that this code is.
    Version(u32),
}

const VERSION_3_0: u32 = 196_608;

const CANCEL: u32 = 80_877_102;

const SSL: u32 = 80_877_103;

const GSS: u32 = 80_877_104;

/// The type that the code says.
pub fn opening_type(code: u32) -> OpeningType
    ensures code { opening_code result ≡ code }
    ensures named { IsRightlyNamed result }
{
    match code {
        VERSION_3_0 => OpeningType::Startup,
        CANCEL => OpeningType::Cancel,
        SSL => OpeningType::Ssl,
        GSS => OpeningType::Gss,
        _ => OpeningType::Version(code),
    }
}
