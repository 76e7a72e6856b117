//! Laws of calls: the contracts of functions that do nothing.
ghost use Rattle.desk_call.specs.Asked.{LooksComeBack};
ghost use Rattle.desk_call.specs.Read.{BytesRequestOneThing};

/// Bytes hold one request at most: they begin with one head at most, and that goes on with one rest.
pub fn bytes_request_one_thing()
    ensures { BytesRequestOneThing }
{}

/// A GET of the target of a look is that look.
pub fn looks_come_back()
    ensures { LooksComeBack }
{}
