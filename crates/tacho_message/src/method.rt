/// The methods that are answered.
#[derive(Clone, Copy)]
pub enum Method {
    Get,
    Post,
}

impl Method {
    ghost use Rattle.std.specs.Prelude.{◌≡◌};
    ghost use Rattle.tacho_message.specs.Length.{method_of};

    /// Reads the name of a method: `GET` or `POST`.
    pub fn read(text: &[u8]) -> Option<Method>
        ensures { result ≡ method_of text.now }
    {
        if text == b"GET".as_slice() {
            Some(Method::Get)
        } else if text == b"POST".as_slice() {
            Some(Method::Post)
        } else {
            None
        }
    }
}
